// Laying a whole job, and reading it with a meter.
ghost use Rattle.std.specs.Prelude.{◌≡◌, ℕ, length, List, MatchResult};
ghost use Rattle.chains.specs.Books.{book_of};
ghost use Rattle.chains.specs.Counts.{reading};
ghost use Rattle.chains.specs.Frontiers.{seed_outlines};
ghost use Rattle.runs.specs.Runs.{Call};
ghost use Rattle.conservation.specs.Law.{Conserves};
ghost use Rattle.whole_jobs.specs.Job.{LaysWhole, LaysNotWhole};
ghost use Rattle.whole_jobs.specs.Whole.{Grown};

use crate::job::{Stopped, lay_job};
use calls::row::Row;
use conservation::law::reading;
use meters::meter::Meter;
use placer::placer::Placer;
use rings::ring::Ring;
use sheet::open::Finished;
use std::alloc::Global;

// A job that is laid whole, with what a meter reads off its pieces.
pub struct Measured<P: Placer, V> {
    pub sheet: Finished<P>,
    pub reading: V,
}

// Lays all pieces of a placer's job, or is refused, as lay_job; and reads what it has laid. By the law of conservation, which holds for the
// meter after any calls, that is what the meter reads off the seed tiles' outlines, inflated to the depth.
pub fn lay_and_read<P: Placer, M: Meter<P::R>>(
    heap: Global,
    placer: P,
    meter: &M,
    list: &mut [Row<<P::R as Ring>::Plain>],
) -> Result<Measured<P, M::Value>, Stopped<P>>
    ensures lays { P.Placer.sound placer → let N = P.Placer.plan placer in MatchResult result
        (λ m. LaysWhole P.R.Ring.exact N P.R.Ring.listed m.sheet.count list.old list.new)
        (λ s. LaysNotWhole P.R.Ring.exact N P.R.Ring.listed P.R.Ring.value s.fault list.old list.new) }
    ensures listed { MatchResult result (λ m. Grown 0 m.sheet.count list.old list.new) (λ _. (n : ℕ) × Grown 0 n list.old list.new) }
    ensures kept { MatchResult result (λ m. P.Placer.plan m.sheet.placer ≡ P.Placer.plan placer) (λ s. P.Placer.plan s.placer ≡ P.Placer.plan placer) }
    ensures sound { P.Placer.sound placer → MatchResult result (λ m. P.Placer.sound m.sheet.placer) (λ s. P.Placer.sound s.placer) }
    ensures law { P.Placer.sound placer → let E = P.R.Ring.exact in let N = P.Placer.plan placer in MatchResult result
        (λ _. (calls : List Call) → Conserves E N M.Meter.group (M.Meter.reads meter.now E P.R.Ring.value (book_of E N)) (length list.old) calls)
        (λ _. Unit {0}) }
    ensures reads { P.Placer.sound placer → let E = P.R.Ring.exact in let N = P.Placer.plan placer in MatchResult result
        (λ m. M.Meter.worth m.reading ≡ reading M.Meter.group (M.Meter.reads meter.now E P.R.Ring.value (book_of E N)) (seed_outlines E N))
        (λ _. Unit {0}) }
{
    let sheet = lay_job(heap, placer, list)?;
    match reading(&sheet, meter, list) {
        Ok(reading) => Ok(Measured { sheet, reading }),
        // Never so: a list that only calls have filled can be read.
        Err(fault) => Err(Stopped {
            placer: sheet.into_placer(),
            fault,
        }),
    }
}
