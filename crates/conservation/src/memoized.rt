// The same over a memo, which is a sound placer: so nothing rests on a premise.
ghost use Rattle.std.specs.Prelude.{◌≡◌, length, map, take, Some, None, MatchOption, MatchResult};
ghost use Rattle.chains.specs.Books.{book_of};
ghost use Rattle.ring_jobs.specs.RingJobs.{job_numbers};
ghost use Rattle.calls.specs.Records.{records};
ghost use Rattle.calls.specs.Views.{sheet_of};
ghost use Rattle.runs.specs.Runs.{begun, run};
ghost use Rattle.sheet.specs.declared.fault.SheetFault.TheVariants.{StillPending};
ghost use Rattle.calls.specs.declared.cursor.Cursor.{Cursor};
ghost use Rattle.conservation.specs.Answered.{call_view, Makes};
ghost use Rattle.conservation.specs.Law.{ReadsSo, Conserves};

use crate::answer::Answer;
use crate::call::Call;
use crate::law::{Ended, perform};
use calls::row::Row;
use meters::meter::Meter;
use placer::descent::Descent;
use placer::memo::Memo;
use ring_jobs::job::RingJob;
use rings::ring::Ring;
use sheet::open::Unstarted;
use std::alloc::Global;

// Makes any calls on a new sheet of a job, over a memo that stands over the plain placer.
pub fn perform_over_memo<R: Ring, M: Meter<R>>(
    heap: Global,
    job: RingJob<R>,
    meter: &M,
    calls: &[Call],
    list: &mut [Row<R::Plain>],
    buffer: &mut [u8],
    answers: &mut [Answer<R>],
) -> Result<Ended<Memo<Descent<R>>, M::Value>, Unstarted<Memo<Descent<R>>>>
    ensures law { let E = R.exact in let N = job_numbers E R.value job in MatchResult result
        (λ _. Conserves E N M.group (M.reads meter.now E R.value (book_of E N)) (length list.old) (map (call_view (length buffer.old)) calls.now))
        (λ _. Unit {0}) }
    ensures runs { let E = R.exact in let N = job_numbers E R.value job in let cs = map (call_view (length buffer.old)) calls.now in MatchResult result
        (λ e. MatchResult e.sheet
        (λ f. Makes E R.value N (length list.old) cs (record { cursor = None; records = records E R.listed f.count list.new }) f.count (take (length calls.now) answers.new) buffer.old buffer.new
        × MatchOption e.reading ⊥ (λ x. ReadsSo E N M.group (M.reads meter.now E R.value (book_of E N)) (run E N (length list.old) cs (begun E N)) (M.worth x)))
        (λ u. Makes E R.value N (length list.old) cs (sheet_of E R.listed u.sheet.cursor u.sheet.count list.new) u.sheet.count (take (length calls.now) answers.new) buffer.old buffer.new
        × ((c : Cursor) × (u.sheet.cursor ≡ Some c)) × (u.fault ≡ StillPending)))
        (λ _. Unit {0}) }
{
    let placer = Memo::new(Descent::new(job));
    perform(heap, placer, meter, calls, list, buffer, answers)
}
