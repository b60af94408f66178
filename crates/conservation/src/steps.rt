// One call on a sheet.
ghost use Rattle.std.specs.Prelude.{◌≡◌, length};
ghost use Rattle.calls.specs.Views.{sheet_of};
ghost use Rattle.conservation.specs.Answered.{call_view, told, Does};

use crate::answer::Answer;
use crate::call::Call;
use calls::row::Row;
use placer::placer::Placer;
use rings::ring::Ring;
use sheet::fault::SheetFault;
use sheet::open::Open;

fn went<R>(answer: Result<(), SheetFault<R>>) -> Answer<R>
    ensures { result ≡ told answer }
{
    match answer {
        Ok(()) => Answer::Went,
        Err(fault) => Answer::Refused(fault),
    }
}

// Makes a call on a sheet, with a list for its records and a buffer for what it saves.
pub(crate) fn answered<P: Placer>(
    sheet: &mut Open<P>,
    call: &Call,
    list: &mut [Row<<P::R as Ring>::Plain>],
    buffer: &mut [u8],
) -> Answer<P::R>
    ensures does { P.Placer.sound sheet.old.placer → Does P.R.Ring.exact P.R.Ring.value (P.Placer.plan sheet.old.placer) (length list.old) (call_view (length buffer.old) call.now) result
        (sheet_of P.R.Ring.exact P.R.Ring.listed sheet.old.cursor sheet.old.count list.old) (sheet_of P.R.Ring.exact P.R.Ring.listed sheet.new.cursor sheet.new.count list.new)
        sheet.old.count sheet.new.count buffer.old buffer.new }
    ensures sized { (length list.new ≡ length list.old) × (length buffer.new ≡ length buffer.old) }
    ensures kept { P.Placer.plan sheet.new.placer ≡ P.Placer.plan sheet.old.placer }
    ensures sound { P.Placer.sound sheet.old.placer → P.Placer.sound sheet.new.placer }
{
    match call {
        Call::Descend => went(sheet.descend()),
        Call::Lay => match sheet.lay(list) {
            Ok(placed) => Answer::Laid(placed),
            Err(fault) => Answer::Refused(fault),
        },
        Call::SetAside => went(sheet.set_aside(list)),
        Call::Save => match sheet.save(list, buffer) {
            Ok(bytes) => Answer::Saved(bytes),
            Err(fault) => Answer::Refused(fault),
        },
        Call::Resume(file) => went(sheet.resume(list, file)),
    }
}
