// Steps one after another: the edges that they count, and the points that they come to.
ghost use Rattle.std.specs.Prelude.{◌≡◌, map};
ghost use Rattle.chains.specs.Edges.{walk, corners};
ghost use Rattle.chains.specs.Placements.{outline};
ghost use Rattle.edges.specs.Views.{chain_view, book_view};
ghost use Rattle.job_rows.specs.Shapes.{step_of};
ghost use Rattle.edges.specs.Working.{KeptWalk, KeptOutline};
ghost use Rattle.edges.specs.Answers.{Made};

use crate::edge::{end_of, step_from};
use crate::fault::ChainFault;
use crate::lookups::steps_of;
use crate::rows::{Book, Counted, Step};
use rings::ring::Ring;
use std::alloc::Global;

// What the steps from a point on count.
pub fn walk_from<R: Ring>(
    heap: Global,
    book: &Book<R>,
    steps: &[Step],
    from: R,
) -> Result<Vec<Counted<R>>, ChainFault>
    ensures { let B = book_view R.exact R.value book.now in Made result
        (λ v. chain_view R.exact R.value v.items ≡ walk R.exact B (map step_of steps.now) (R.value from))
        (KeptWalk R.exact B (map step_of steps.now) (R.value from)) }
{
    let mut out = Vec::new(heap);
    let mut q = from;
    for s in steps {
        let step = step_from(book, *s, q)?;
        out.push(step.counted)?;
        q = step.end;
    }
    Ok(out)
}

// The points that the steps from a point on come to.
pub fn corners_from<R: Ring>(
    heap: Global,
    book: &Book<R>,
    steps: &[Step],
    from: R,
) -> Result<Vec<R>, ChainFault>
    ensures { let B = book_view R.exact R.value book.now in Made result
        (λ v. map R.value v.items ≡ corners R.exact B (map step_of steps.now) (R.value from))
        (KeptWalk R.exact B (map step_of steps.now) (R.value from)) }
{
    let mut out = Vec::new(heap);
    let mut q = from;
    for s in steps {
        q = end_of(book, s.label, s.direction, q)?;
        out.push(q)?;
    }
    Ok(out)
}

// The edges of tile t's outline.
pub fn outline_of<R: Ring>(
    heap: Global,
    book: &Book<R>,
    t: usize,
) -> Result<Vec<Counted<R>>, ChainFault>
    ensures { let B = book_view R.exact R.value book.now in Made result
        (λ v. chain_view R.exact R.value v.items ≡ outline R.exact B t)
        (KeptOutline R.exact B t) }
{
    walk_from(heap, book, steps_of(book, t), R::zero())
}
