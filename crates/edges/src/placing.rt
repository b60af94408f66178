// Outlines of placed tiles, and the canonical forms of whole chains.
ghost use Rattle.std.specs.Prelude.{◌≡◌, ◌++◌, map};
ghost use Rattle.std.specs.List.{AllByRecursion};
ghost use Rattle.chains.specs.Edges.{canonical};
ghost use Rattle.chains.specs.Placements.{placed, placed_outline, outlines};
ghost use Rattle.edges.specs.Views.{chain_view, placement_view, book_view};
ghost use Rattle.edges.specs.Working.{KeptPlaced, KeptPlacedOutline, KeptForms};
ghost use Rattle.edges.specs.Answers.{Made};

use crate::edge::{canonical_form, placed_edge};
use crate::fault::ChainFault;
use crate::rows::{Book, Counted, Placed};
use crate::walks::outline_of;
use rings::ring::Ring;
use std::alloc::Global;

// Puts a chain, as a placement brings it, behind what is there.
fn put_placed<R: Ring>(
    p: &Placed<R>,
    chain: &[Counted<R>],
    out: &mut Vec<Counted<R>>,
) -> Result<(), ChainFault>
    ensures { Made result
        (λ _. chain_view R.exact R.value out.new.items ≡ chain_view R.exact R.value out.old.items ++ placed R.exact (placement_view R.exact R.value p.now) (chain_view R.exact R.value chain.now))
        (KeptPlaced R.exact (placement_view R.exact R.value p.now) (chain_view R.exact R.value chain.now)) }
{
    for x in chain {
        let y = placed_edge(p, x)?;
        out.push(y)?;
    }
    Ok(())
}

// Puts a placed tile's outline behind what is there.
fn put_outline<R: Ring>(
    heap: Global,
    book: &Book<R>,
    p: &Placed<R>,
    out: &mut Vec<Counted<R>>,
) -> Result<(), ChainFault>
    ensures { let B = book_view R.exact R.value book.now in Made result
        (λ _. chain_view R.exact R.value out.new.items ≡ chain_view R.exact R.value out.old.items ++ placed_outline R.exact B (placement_view R.exact R.value p.now))
        (KeptPlacedOutline R.exact B (placement_view R.exact R.value p.now)) }
{
    let chain = outline_of(heap, book, p.tile)?;
    put_placed(p, chain.as_slice(), out)
}

// The outline of a placed tile.
pub fn outline_at<R: Ring>(
    heap: Global,
    book: &Book<R>,
    p: &Placed<R>,
) -> Result<Vec<Counted<R>>, ChainFault>
    ensures { let B = book_view R.exact R.value book.now in Made result
        (λ v. chain_view R.exact R.value v.items ≡ placed_outline R.exact B (placement_view R.exact R.value p.now))
        (KeptPlacedOutline R.exact B (placement_view R.exact R.value p.now)) }
{
    let mut edges = Vec::new(heap);
    put_outline(heap, book, p, &mut edges)?;
    Ok(edges)
}

// The outlines of placed tiles, one after another.
pub fn outlines_at<R: Ring>(
    heap: Global,
    book: &Book<R>,
    placements: &[Placed<R>],
) -> Result<Vec<Counted<R>>, ChainFault>
    ensures { let B = book_view R.exact R.value book.now in Made result
        (λ v. chain_view R.exact R.value v.items ≡ outlines R.exact B (map (placement_view R.exact R.value) placements.now))
        (AllByRecursion (KeptPlacedOutline R.exact B) (map (placement_view R.exact R.value) placements.now)) }
{
    let mut out = Vec::new(heap);
    for p in placements {
        put_outline(heap, book, p, &mut out)?;
    }
    Ok(out)
}

// A chain with every edge in canonical form.
pub fn canonical_chain<R: Ring>(
    heap: Global,
    book: &Book<R>,
    chain: &[Counted<R>],
) -> Result<Vec<Counted<R>>, ChainFault>
    ensures { let B = book_view R.exact R.value book.now in Made result
        (λ v. chain_view R.exact R.value v.items ≡ map (canonical R.exact B) (chain_view R.exact R.value chain.now))
        (KeptForms R.exact B (chain_view R.exact R.value chain.now)) }
{
    let mut out = Vec::new(heap);
    for x in chain {
        let form = canonical_form(book, x)?;
        out.push(form)?;
    }
    Ok(out)
}
