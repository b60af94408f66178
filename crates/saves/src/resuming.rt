// A sheet resumed from a file: judged first, and only then written into the caller's list.
ghost use Rattle.std.specs.Prelude.{◌≡◌, ◌≤◌, length, drop, Ok, Err, IfOk, MatchResult};
ghost use Rattle.calls.specs.Limits.{usable, most_pieces};
ghost use Rattle.files.specs.Calls.{resume};
ghost use Rattle.calls.specs.Views.{sheet_of};
ghost use Rattle.saves.specs.Faults.{reason_of};

use crate::fault::ResumeFault;
use crate::judging::{Judged, judge, scan};
use calls::limits::MOST_PIECES;
use calls::row::Row;
use placer::placer::Placer;
use rings::ring::Ring;

// Reads a saved sheet's records into a list and answers its cursor and how many there are. A file that is no lawful save is refused
// where it goes wrong, and then one with more records than the list has usable places; a refusal leaves the list as it was.
pub fn resume<P: Placer>(
    placer: &mut P,
    list: &mut [Row<<P::R as Ring>::Plain>],
    file: &[u8],
) -> Result<Judged, ResumeFault>
    ensures answer { P.Placer.sound placer.old → let N = P.Placer.plan placer.old in let places = usable (length list.old) in MatchResult result
        (λ j. let s = sheet_of P.R.Ring.exact P.R.Ring.listed j.cursor j.count list.new in
        (resume P.R.Ring.exact N places file.now ≡ Ok s) × (length s.records ≡ j.count) × (drop j.count list.new ≡ drop j.count list.old))
        (λ f. (resume P.R.Ring.exact N places file.now ≡ Err (reason_of f)) × (list.new ≡ list.old)) }
    ensures limit { IfOk result (λ j. j.count ≤ most_pieces) }
    ensures kept { P.Placer.plan placer.new ≡ P.Placer.plan placer.old }
    ensures sound { P.Placer.sound placer.old → P.Placer.sound placer.new }
{
    let judged = judge(placer, file)?;
    if judged.count > list.len().min(MOST_PIECES) {
        return Err(ResumeFault::NoRoom);
    }
    Ok(scan(placer, file, list)?)
}
