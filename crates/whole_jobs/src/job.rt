// Laying a whole job.
ghost use Rattle.std.specs.Prelude.{◌≡◌, ℕ, MatchResult};
ghost use Rattle.whole_jobs.specs.Job.{LaysWhole, LaysNotWhole};
ghost use Rattle.whole_jobs.specs.Whole.{Grown};

use crate::laying::lay_all;
use calls::row::Row;
use placer::placer::Placer;
use rings::ring::Ring;
use sheet::fault::SheetFault;
use sheet::open::{Finished, Open, Unfinished, Unstarted};
use std::alloc::Global;

// A placer whose job was not laid whole, handed back with the reason.
pub struct Stopped<P: Placer> {
    pub placer: P,
    pub fault: SheetFault<P::R>,
}

impl<P: Placer> Stopped<P> {
    // With a sheet that is given up.
    fn with(sheet: Open<P>, fault: SheetFault<P::R>) -> Stopped<P>
        ensures { (result.placer ≡ sheet.placer) × (result.fault ≡ fault) }
    {
        Stopped {
            placer: sheet.into_placer(),
            fault,
        }
    }
}

impl<P: Placer> From<Unstarted<P>> for Stopped<P> {
    ghost from_gives = { λ u s. (s.placer ≡ u.placer) × (s.fault ≡ u.fault) };

    fn from(u: Unstarted<P>) -> Stopped<P> {
        let Unstarted { placer, fault } = u;
        Stopped { placer, fault }
    }
}

impl<P: Placer> From<Unfinished<P>> for Stopped<P> {
    ghost from_gives = { λ u s. (s.placer ≡ u.sheet.placer) × (s.fault ≡ u.fault) };

    fn from(u: Unfinished<P>) -> Stopped<P> {
        let Unfinished { sheet, fault } = u;
        Stopped::with(sheet, fault)
    }
}

// Lays all pieces of a placer's job, in order, from the first place of a list on. The check of the job stands before: refused by it, nothing is laid.
// Else it is refused at the first piece that cannot be laid: 9 with no free place, 8 off the plane. The pieces before it are in the list then.
// Laid whole or not, its calls on the sheet are a run that keeps the law of conservation (specs/Job.antt, LedByARun).
pub fn lay_job<P: Placer>(
    heap: Global,
    placer: P,
    list: &mut [Row<<P::R as Ring>::Plain>],
) -> Result<Finished<P>, Stopped<P>>
    ensures lays { P.Placer.sound placer → let N = P.Placer.plan placer in MatchResult result
        (λ f. LaysWhole P.R.Ring.exact N P.R.Ring.listed f.count list.old list.new)
        (λ s. LaysNotWhole P.R.Ring.exact N P.R.Ring.listed P.R.Ring.value s.fault list.old list.new) }
    ensures listed { MatchResult result (λ f. Grown 0 f.count list.old list.new) (λ _. (n : ℕ) × Grown 0 n list.old list.new) }
    ensures kept { MatchResult result (λ f. P.Placer.plan f.placer ≡ P.Placer.plan placer) (λ s. P.Placer.plan s.placer ≡ P.Placer.plan placer) }
    ensures sound { P.Placer.sound placer → MatchResult result (λ f. P.Placer.sound f.placer) (λ s. P.Placer.sound s.placer) }
{
    let mut sheet = Open::start(heap, placer)?;
    if let Err(fault) = lay_all(&mut sheet, list) {
        return Err(Stopped::with(sheet, fault));
    }
    Ok(sheet.finish()?)
}
