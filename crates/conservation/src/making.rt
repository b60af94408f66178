// Calls one after another.
ghost use Rattle.std.specs.Prelude.{◌≡◌, ◌≤◌, length, map, take, drop, slice_set};
ghost use Rattle.ring_jobs.specs.Shapes.{Branching};
ghost use Rattle.calls.specs.Sheets.{start};
ghost use Rattle.calls.specs.Views.{sheet_of};
ghost use Rattle.conservation.specs.Answered.{call_view, Makes};

use crate::answer::Answer;
use crate::call::Call;
use crate::steps::answered;
use calls::row::Row;
use placer::placer::Placer;
use rings::ring::Ring;
use sheet::open::Open;

// Writes an answer to its place.
fn note<R: Copy>(answers: &mut [Answer<R>], i: usize, answer: Answer<R>)
    ensures { answers.new ≡ slice_set answers.old i answer }
{
    if i < answers.len() {
        answers[i] = answer;
    }
}

// Makes the calls on a sheet, one after another, and writes down what each answered.
pub(crate) fn make_all<P: Placer>(
    sheet: &mut Open<P>,
    calls: &[Call],
    list: &mut [Row<<P::R as Ring>::Plain>],
    buffer: &mut [u8],
    answers: &mut [Answer<P::R>],
)
    requires { length calls.now ≤ length answers.old }
    ensures makes { P.Placer.sound sheet.old.placer → Branching (P.Placer.plan sheet.old.placer) → sheet.old.count ≡ 0 →
        sheet_of P.R.Ring.exact P.R.Ring.listed sheet.old.cursor sheet.old.count list.old ≡ start P.R.Ring.exact (P.Placer.plan sheet.old.placer) →
        Makes P.R.Ring.exact P.R.Ring.value (P.Placer.plan sheet.old.placer) (length list.old) (map (call_view (length buffer.old)) calls.now)
        (sheet_of P.R.Ring.exact P.R.Ring.listed sheet.new.cursor sheet.new.count list.new) sheet.new.count (take (length calls.now) answers.new) buffer.old buffer.new }
    ensures rest { drop (length calls.now) answers.new ≡ drop (length calls.now) answers.old }
    ensures sized { (length list.new ≡ length list.old) × (length buffer.new ≡ length buffer.old) × (length answers.new ≡ length answers.old) }
    ensures kept { P.Placer.plan sheet.new.placer ≡ P.Placer.plan sheet.old.placer }
    ensures sound { P.Placer.sound sheet.old.placer → P.Placer.sound sheet.new.placer }
{
    for i in 0..calls.len() {
        let answer = answered(sheet, &calls[i], list, buffer);
        note(answers, i, answer);
    }
}
