// The cutting list of a finished sheet, into a caller's buffer.
ghost use Rattle.std.specs.Prelude.{length};
ghost use Rattle.calls.specs.Records.{records};
ghost use Rattle.cutting.specs.Printed.{Prints};

use crate::puts::put_lines;
use calls::lists::fit_rows;
use calls::row::Row;
use faults::TooShort;
use placer::placer::Placer;
use rings::ring::Ring;
use sheet::fault::SheetFault;
use sheet::open::Finished;

// Writes a line for each record and answers their length. Refused, it writes nothing: a list altered behind the sheet's back is
// refused as its rows cannot be read, and then a buffer that is too short.
pub fn cutting_list<P: Placer>(
    sheet: &Finished<P>,
    list: &[Row<<P::R as Ring>::Plain>],
    buffer: &mut [u8],
) -> Result<usize, SheetFault<P::R>>
    ensures { let E = P.R.Ring.exact in let count = sheet.now.count in
        Prints E (P.Placer.plan sheet.now.placer) (length list.now) count (records E P.R.Ring.listed count list.now) buffer.old buffer.new result }
{
    let rows = fit_rows(sheet.job(), list, sheet.count())?;
    // Measured in an empty buffer, before the caller's is touched.
    let measured = put_lines::<P::R>(&mut [], rows).ok_or(TooShort)?;
    if measured > buffer.len() {
        return Err(SheetFault::Buffer(TooShort));
    }
    put_lines::<P::R>(buffer, rows);
    Ok(measured)
}
