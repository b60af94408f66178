// What outlines have to be.
ghost use Rattle.std.specs.Prelude.{◌≡◌, ◌*◌, map, length};
ghost use Rattle.exact.specs.Sizes.{Within};
ghost use Rattle.exact.specs.Sweeps.{total_of, sweep_through};
ghost use Rattle.rings.specs.Plane.{sweep_bound};
ghost use Rattle.chains.specs.Edges.{walk_end, corners};
ghost use Rattle.chains.specs.Accepted.{OutlineCloses};
ghost use Rattle.edges.specs.Answers.{Worked};
ghost use Rattle.edges.specs.Views.{book_view};
ghost use Rattle.job_rows.specs.Shapes.{step_of};
ghost use Rattle.edges.specs.Working.{KeptWalk};
ghost use Rattle.book.specs.Points.{KeptRound, Tested};

use edges::edge::end_of;
use edges::lookups::steps_of;
use edges::rows::{Book, Step};
use rings::fault::RingFault;
use rings::group::Group;
use rings::ring::Ring;

// Where some steps from 0 end, and what they sweep over.
#[derive(Clone, Copy)]
pub struct Round<R, S> {
    pub end: R,
    pub swept: S,
}

// Goes the steps from 0 and adds up their sweeps, modulo 2^64. The exact total is small where there are few steps.
pub fn go_round<R: Ring>(book: &Book<R>, steps: &[Step]) -> Result<Round<R, R::Sweep>, RingFault>
    ensures { let B = book_view R.exact R.value book.now in Worked result
        (λ x. (R.value x.end ≡ walk_end R.exact B (map step_of steps.now) R.exact.zero)
        × (R.total x.swept ≡ total_of R.exact (sweep_through R.exact R.exact.zero (corners R.exact B (map step_of steps.now) R.exact.zero)))
        × Within (length steps.now * sweep_bound) (R.exact.list (sweep_through R.exact R.exact.zero (corners R.exact B (map step_of steps.now) R.exact.zero))))
        (KeptWalk R.exact B (map step_of steps.now) R.exact.zero) }
{
    let mut end = R::zero();
    let mut swept = R::Sweep::zero();
    for s in steps {
        let next = end_of(book, s.label, s.direction, end)?;
        swept = swept.sum(end.sweep(next));
        end = next;
    }
    Ok(Round { end, swept })
}

// Whether tile t's outline ends at 0 with a positive area.
pub(crate) fn outline_closes<R: Ring>(book: &Book<R>, t: usize) -> Result<bool, RingFault>
    ensures { let B = book_view R.exact R.value book.now in Tested result (OutlineCloses R.exact B t) (KeptRound R.exact B t) }
{
    let round = go_round(book, steps_of(book, t))?;
    if round.end != R::zero() {
        return Ok(false);
    }
    let height = R::sweep_height(round.swept)?;
    Ok(height == 1)
}
