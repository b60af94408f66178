// Inflation: every edge gives way to its label's subdivision.
ghost use Rattle.std.specs.Prelude.{◌≡◌, ◌++◌, map, IfOk, OnOk};
ghost use Rattle.chains.specs.Counts.{scaled};
ghost use Rattle.chains.specs.Inflation.{stepped, subdivided, inflate};
ghost use Rattle.edges.specs.Views.{chain_view, edge_view, counted_view, book_view, count_of};
ghost use Rattle.job_rows.specs.Shapes.{part_of, step_of};
ghost use Rattle.edges.specs.Working.{KeptSubdivided, KeptInflated};
ghost use Rattle.edges.specs.Answers.{Made};

use crate::fault::ChainFault;
use crate::lookups::parts_of;
use crate::rows::{Book, Counted, Edge, Part, Step};
use crate::walks::walk_from;
use rings::ring::Ring;
use std::alloc::{AllocError, Global};

// The parts of a subdivision as steps, all in one direction.
fn steps_in(heap: Global, direction: u32, parts: &[Part]) -> Result<Vec<Step>, AllocError>
    ensures { IfOk result (λ v. map step_of v.items ≡ stepped direction (map part_of parts.now)) }
{
    parts
        .iter()
        .map(|p| Step {
            label: p.label,
            forward: p.forward,
            direction,
        })
        .collect(heap)
}

// What an edge becomes when it is inflated once: its label's subdivision, stepped in its direction from F times its start.
pub fn subdivide<R: Ring>(
    heap: Global,
    book: &Book<R>,
    x: &Edge<R>,
) -> Result<Vec<Counted<R>>, ChainFault>
    ensures { let B = book_view R.exact R.value book.now in Made result
        (λ v. chain_view R.exact R.value v.items ≡ subdivided R.exact B (edge_view R.exact R.value x.now))
        (KeptSubdivided R.exact B (edge_view R.exact R.value x.now)) }
{
    let from = book.factor.mul(x.start)?;
    let steps = steps_in(heap, x.direction, parts_of(book, x.label))?;
    walk_from(heap, book, steps.as_slice(), from)
}

// Puts a chain behind what is there, every count turned where it is taken back.
fn put_scaled<R: Ring>(
    back: bool,
    chain: &[Counted<R>],
    out: &mut Vec<Counted<R>>,
) -> Result<(), AllocError>
    ensures { OnOk result (chain_view R.exact R.value out.new.items ≡ chain_view R.exact R.value out.old.items ++ scaled (count_of back) (chain_view R.exact R.value chain.now)) }
{
    out.extend(
        chain.iter().map(|x| Counted {
            edge: x.edge,
            back: x.back != back,
        }),
    )
}

// Puts what a counted edge becomes behind what is there.
fn put_subdivided<R: Ring>(
    heap: Global,
    book: &Book<R>,
    x: &Counted<R>,
    out: &mut Vec<Counted<R>>,
) -> Result<(), ChainFault>
    ensures { let B = book_view R.exact R.value book.now in Made result
        (λ _. chain_view R.exact R.value out.new.items ≡ chain_view R.exact R.value out.old.items ++ scaled (count_of x.now.back) (subdivided R.exact B (edge_view R.exact R.value x.now.edge)))
        (KeptSubdivided R.exact B (edge_view R.exact R.value x.now.edge)) }
{
    let edge = x.edge;
    let chain = subdivide(heap, book, &edge)?;
    put_scaled(x.back, chain.as_slice(), out)?;
    Ok(())
}

// A chain inflated once.
pub fn inflate_chain<R: Ring>(
    heap: Global,
    book: &Book<R>,
    chain: &[Counted<R>],
) -> Result<Vec<Counted<R>>, ChainFault>
    ensures { let B = book_view R.exact R.value book.now in Made result
        (λ v. chain_view R.exact R.value v.items ≡ inflate R.exact B (chain_view R.exact R.value chain.now))
        (KeptInflated R.exact B (chain_view R.exact R.value chain.now)) }
{
    let mut out = Vec::new(heap);
    for x in chain {
        put_subdivided(heap, book, x, &mut out)?;
    }
    Ok(out)
}
