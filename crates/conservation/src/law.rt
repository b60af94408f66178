// The law of conservation: any calls on a new sheet.
ghost use Rattle.std.specs.Prelude.{◌≡◌, ◌≤◌, length, map, take, drop, Some, None, MatchOption, MatchResult, IsOk};
ghost use Rattle.job_check.specs.Checks.{Passes};
ghost use Rattle.chains.specs.Books.{book_of};
ghost use Rattle.chains.specs.Counts.{reading};
ghost use Rattle.chains.specs.Placements.{outlines};
ghost use Rattle.chains.specs.Theorems.{RealLengths};
ghost use Rattle.calls.specs.Records.{records, laid_pieces};
ghost use Rattle.calls.specs.Views.{sheet_of};
ghost use Rattle.meters.specs.Pieces.{Readable};
ghost use Rattle.runs.specs.Runs.{begun, run};
ghost use Rattle.conservation.specs.Answered.{call_view, Makes};
ghost use Rattle.calls.specs.declared.cursor.Cursor.{Cursor};
ghost use Rattle.sheet.specs.declared.fault.SheetFault.TheVariants.{StillPending};
ghost use Rattle.conservation.specs.Law.{NotRead, ReadsSo, NotBegun, Conserves};

use crate::answer::Answer;
use crate::call::Call;
use crate::making::make_all;
use calls::row::Row;
use faults::TooShort;
use meters::meter::Meter;
use meters::rows::reading_of_rows;
use placer::placer::Placer;
use rings::ring::Ring;
use sheet::fault::SheetFault;
use sheet::open::{Finished, Open, Unfinished, Unstarted};
use std::alloc::Global;

// What a meter reads off the laid pieces of a finished sheet. A list that was altered behind the sheet's back, so that it cannot be read,
// is refused.
pub fn reading<P: Placer, M: Meter<P::R>>(
    sheet: &Finished<P>,
    meter: &M,
    list: &[Row<<P::R as Ring>::Plain>],
) -> Result<M::Value, SheetFault<P::R>>
    ensures reads { let E = P.R.Ring.exact in let N = P.Placer.plan sheet.now.placer in let rs = records E P.R.Ring.listed sheet.now.count list.now in MatchResult result
        (λ x. Readable E N (length list.now) sheet.now.count rs
        × (RealLengths E (book_of E N) → M.Meter.worth x ≡ reading M.Meter.group (M.Meter.reads meter.now E P.R.Ring.value (book_of E N)) (outlines E (book_of E N) (laid_pieces rs))))
        (λ f. NotRead E N (length list.now) sheet.now.count rs f) }
    ensures reads_all_that_fit { let E = P.R.Ring.exact in let N = P.Placer.plan sheet.now.placer in Readable E N (length list.now) sheet.now.count (records E P.R.Ring.listed sheet.now.count list.now) → IsOk result }
{
    Ok(reading_of_rows(sheet.job(), meter, list, sheet.count())?)
}

// A run that has ended.
pub struct Ended<P: Placer, V> {
    // The finished sheet or, with a node pending, the open one with the reason.
    pub sheet: Result<Finished<P>, Unfinished<P>>,
    // What the meter reads off the laid pieces of a finished sheet.
    pub reading: Option<V>,
}

// Finishes the sheet, if it can be, and reads it.
fn end_of<P: Placer, M: Meter<P::R>>(
    sheet: Open<P>,
    meter: &M,
    list: &[Row<<P::R as Ring>::Plain>],
) -> Ended<P, M::Value>
    ensures finished { let E = P.R.Ring.exact in let N = P.Placer.plan sheet.placer in let rs = records E P.R.Ring.listed sheet.count list.now in MatchResult result.sheet
        (λ f. (sheet.cursor ≡ None) × (f.placer ≡ sheet.placer) × (f.count ≡ sheet.count)
        × (Readable E N (length list.now) sheet.count rs → RealLengths E (book_of E N) → MatchOption result.reading ⊥
        (λ x. M.Meter.worth x ≡ reading M.Meter.group (M.Meter.reads meter.now E P.R.Ring.value (book_of E N)) (outlines E (book_of E N) (laid_pieces rs)))))
        (λ u. ((c : Cursor) × (sheet.cursor ≡ Some c)) × (u.sheet ≡ sheet) × (u.fault ≡ StillPending)) }
{
    match sheet.finish() {
        Ok(finished) => {
            let read = reading(&finished, meter, list).ok();
            Ended {
                sheet: Ok(finished),
                reading: read,
            }
        }
        Err(unfinished) => Ended {
            sheet: Err(unfinished),
            reading: None,
        },
    }
}

// Makes any calls on a new sheet, one after another, refused ones included, and tells what each answered; then finishes the sheet, if it
// can be, and reads it. A list for the records, a buffer for all saves and a place for each answer are lent.
// Its contract holds the law of conservation (specs/Law.antt), for every ring, placer and meter: at the start and after each call.
pub fn perform<P: Placer, M: Meter<P::R>>(
    heap: Global,
    placer: P,
    meter: &M,
    calls: &[Call],
    list: &mut [Row<<P::R as Ring>::Plain>],
    buffer: &mut [u8],
    answers: &mut [Answer<P::R>],
) -> Result<Ended<P, M::Value>, Unstarted<P>>
    ensures law { let E = P.R.Ring.exact in let N = P.Placer.plan placer in MatchResult result
        (λ _. Conserves E N M.Meter.group (M.Meter.reads meter.now E P.R.Ring.value (book_of E N)) (length list.old) (map (call_view (length buffer.old)) calls.now))
        (λ _. Unit {0}) }
    ensures runs { P.Placer.sound placer → let E = P.R.Ring.exact in let N = P.Placer.plan placer in let cs = map (call_view (length buffer.old)) calls.now in MatchResult result
        (λ e. MatchResult e.sheet
        (λ f. Makes E P.R.Ring.value N (length list.old) cs (record { cursor = None; records = records E P.R.Ring.listed f.count list.new }) f.count (take (length calls.now) answers.new) buffer.old buffer.new
        × MatchOption e.reading ⊥ (λ x. ReadsSo E N M.Meter.group (M.Meter.reads meter.now E P.R.Ring.value (book_of E N)) (run E N (length list.old) cs (begun E N)) (M.Meter.worth x)))
        (λ u. Makes E P.R.Ring.value N (length list.old) cs (sheet_of E P.R.Ring.listed u.sheet.cursor u.sheet.count list.new) u.sheet.count (take (length calls.now) answers.new) buffer.old buffer.new
        × ((c : Cursor) × (u.sheet.cursor ≡ Some c)) × (u.fault ≡ StillPending)))
        (λ _. Unit {0}) }
    ensures starts { let E = P.R.Ring.exact in let N = P.Placer.plan placer in MatchResult result
        (λ _. Passes E N × (length calls.now ≤ length answers.old))
        (λ u. (u.placer ≡ placer) × NotBegun E N P.R.Ring.value (length calls.now) (length answers.old) u.fault × (list.new ≡ list.old) × (buffer.new ≡ buffer.old) × (answers.new ≡ answers.old)) }
    ensures rest { drop (length calls.now) answers.new ≡ drop (length calls.now) answers.old }
{
    if answers.len() < calls.len() {
        let fault = SheetFault::Buffer(TooShort);
        return Err(Unstarted { placer, fault });
    }
    let mut sheet = Open::start(heap, placer)?;
    make_all(&mut sheet, calls, list, buffer, answers);
    Ok(end_of(sheet, meter, list))
}
