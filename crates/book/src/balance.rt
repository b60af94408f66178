// The balance of a tile: its children count every edge as its inflated outline does.
ghost use Rattle.std.specs.Prelude.{◌≡◌, map, MatchOption};
ghost use Rattle.std.specs.List.{AllByRecursion};
ghost use Rattle.chains.specs.Books.{tile_at};
ghost use Rattle.chains.specs.Edges.{canonical};
ghost use Rattle.chains.specs.Inflation.{inflate};
ghost use Rattle.chains.specs.Placements.{outline, outlines};
ghost use Rattle.chains.specs.Accepted.{ChildrenBalance};
ghost use Rattle.edges.specs.Answers.{Made};
ghost use Rattle.edges.specs.Views.{chain_view, edge_view, book_view};
ghost use Rattle.edges.specs.Working.{KeptOutline, KeptPlacedOutline, KeptInflated, KeptForms};
ghost use Rattle.book.specs.Differences.{UnbalancedAt};
ghost use Rattle.book.specs.Points.{KeptBalance};

use crate::fault::Difference;
use crate::nets::first_difference;
use edges::fault::ChainFault;
use edges::inflating::inflate_chain;
use edges::lookups::children_of;
use edges::placing::{canonical_chain, outlines_at};
use edges::rows::{Book, Counted};
use edges::walks::outline_of;
use rings::ring::Ring;
use std::alloc::Global;

// Tile t's children, every edge in canonical form.
fn children_forms<R: Ring>(
    heap: Global,
    book: &Book<R>,
    t: usize,
) -> Result<Vec<Counted<R>>, ChainFault>
    ensures { let B = book_view R.exact R.value book.now in Made result
        (λ v. chain_view R.exact R.value v.items ≡ map (canonical R.exact B) (outlines R.exact B (tile_at B t).children))
        (AllByRecursion (KeptPlacedOutline R.exact B) (tile_at B t).children
        × KeptForms R.exact B (outlines R.exact B (tile_at B t).children)) }
{
    let chain = outlines_at(heap, book, children_of(book, t))?;
    canonical_chain(heap, book, chain.as_slice())
}

// Tile t's outline inflated once, every edge in canonical form.
fn inflated_forms<R: Ring>(
    heap: Global,
    book: &Book<R>,
    t: usize,
) -> Result<Vec<Counted<R>>, ChainFault>
    ensures { let B = book_view R.exact R.value book.now in Made result
        (λ v. chain_view R.exact R.value v.items ≡ map (canonical R.exact B) (inflate R.exact B (outline R.exact B t)))
        (KeptOutline R.exact B t
        × KeptInflated R.exact B (outline R.exact B t)
        × KeptForms R.exact B (inflate R.exact B (outline R.exact B t))) }
{
    let outline = outline_of(heap, book, t)?;
    let inflated = inflate_chain(heap, book, outline.as_slice())?;
    canonical_chain(heap, book, inflated.as_slice())
}

// The first edge that tile t's children and its inflated outline count differently, if there is one.
pub fn tile_difference<R: Ring>(
    heap: Global,
    book: &Book<R>,
    t: usize,
) -> Result<Option<Difference<R>>, ChainFault>
    ensures { let B = book_view R.exact R.value book.now in Made result
        (λ o. MatchOption o (ChildrenBalance R.exact B t) (λ d. UnbalancedAt R.exact B t (edge_view R.exact R.value d.edge) d.amount))
        (KeptBalance R.exact B t) }
{
    let parts = children_forms(heap, book, t)?;
    let whole = inflated_forms(heap, book, t)?;
    Ok(first_difference(parts.as_slice(), whole.as_slice()))
}
