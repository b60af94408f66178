// Starting and finishing a sheet.
ghost use Rattle.std.specs.Prelude.{◌≡◌, Some, None, MatchResult};
ghost use Rattle.job_check.specs.Checks.{Passes};
ghost use Rattle.calls.specs.Sheets.{start, AtNode};
ghost use Rattle.calls.specs.Views.{cursor_at};
ghost use Rattle.calls.specs.declared.cursor.Cursor.{Cursor};
ghost use Rattle.sheet.specs.Ends.{NotStarted};
ghost use Rattle.sheet.specs.declared.fault.SheetFault.TheVariants.{StillPending};

use crate::fault::SheetFault;
use crate::open::{Finished, Open, Unfinished, Unstarted};
use calls::cursor::Cursor;
use job_check::check::check_job;
use placer::placer::Placer;
use std::alloc::Global;

impl<P: Placer> Open<P> {
    // A sheet at the first seed tile, with no records: 13 where the ring's n or d is not the job's, then the check of its book.
    // Refused, it hands the placer back.
    pub fn start(heap: Global, placer: P) -> Result<Self, Unstarted<P>>
        ensures starts { let N = P.Placer.plan placer in MatchResult result
            (λ s. Passes P.R.Ring.exact N × (s.placer ≡ placer) × (s.count ≡ 0) × (cursor_at s.cursor ≡ (start P.R.Ring.exact N).cursor))
            (λ u. (u.placer ≡ placer) × NotStarted P.R.Ring.exact P.R.Ring.value N u.fault) }
        ensures node { MatchResult result (λ s. AtNode (P.Placer.plan placer) (cursor_at s.cursor)) (λ _. Unit {0}) }
    {
        let job = placer.job();
        let cursor = Cursor::first(job);
        match check_job(heap, job) {
            Ok(()) => Ok(Open {
                placer,
                cursor,
                count: 0,
            }),
            Err(fault) => Err(Unstarted {
                placer,
                fault: SheetFault::Check(fault),
            }),
        }
    }

    // The placer, for another sheet: what was laid stays in the list.
    pub fn into_placer(self) -> P
        ensures { result ≡ self.placer }
    {
        let Open {
            placer,
            cursor: _,
            count: _,
        } = self;
        placer
    }

    // The sheet as a finished one; with a node pending it is handed back as it was.
    pub fn finish(self) -> Result<Finished<P>, Unfinished<P>>
        ensures { MatchResult result
            (λ f. (self.cursor ≡ None) × (f.placer ≡ self.placer) × (f.count ≡ self.count))
            (λ u. ((c : Cursor) × (self.cursor ≡ Some c)) × (u.sheet ≡ self) × (u.fault ≡ StillPending)) }
    {
        if self.cursor.is_some() {
            return Err(Unfinished {
                sheet: self,
                fault: SheetFault::StillPending,
            });
        }
        let Open {
            placer,
            cursor: _,
            count,
        } = self;
        Ok(Finished { placer, count })
    }
}
