// A sheet in progress, saved to bytes.
ghost use Rattle.std.specs.Prelude.{◌≡◌, ℕ, ◌+◌, ◌*◌, ◌/◌, ◌%◌, ◌^◌, ◌<◌, ◌≤◌, [], ◌∷◌, ◌++◌, length, map, drop, MatchOption, MatchResult};
ghost use Rattle.std.specs.List.{AllByRecursion, flat_map};
ghost use Rattle.ring_jobs.specs.RingJobs.{job_numbers};
ghost use Rattle.calls.specs.Limits.{most_pieces};
ghost use Rattle.calls.specs.Records.{row_view};
ghost use Rattle.calls.specs.Fits.{Fits};
ghost use Rattle.calls.specs.Views.{sheet_of, cursor_at};
ghost use Rattle.files.specs.Files.{last_byte, record_bytes, saved};
ghost use Rattle.saves.specs.Saving.{Unsaved};

use crate::fault::SaveFault;
use crate::writing::{put, put_rows};
use calls::cursor::Cursor;
use calls::fault::ListFault;
use calls::limits::MOST_PIECES;
use calls::lists::fit_rows;
use calls::row::Row;
use faults::TooShort;
use ring_jobs::job::RingJob;
use rings::ring::Ring;

// How many bytes a row has; None where their number is beyond all buffers.
fn row_width<R: Ring>(row: &Row<R::Plain>) -> Option<usize>
    ensures { let w = length (record_bytes R.exact (row_view R.exact R.listed row.now)) in MatchOption result (2 ^ 64 ≤ w) (λ n. n ≡ w) }
{
    match row.laid {
        None => Some(1),
        Some(_) => R::D.checked_mul(4)?.checked_add(2),
    }
}

// How many bytes the file of so many rows has: theirs, three before them and one behind.
fn file_width<R: Ring>(rows: &[Row<R::Plain>]) -> Option<usize>
    ensures { let w = 4 + length (flat_map (record_bytes R.exact) (map (row_view R.exact R.listed) rows.now)) in MatchOption result (2 ^ 64 ≤ w) (λ n. n ≡ w) }
{
    let mut width = 4usize;
    for row in rows {
        width = width.checked_add(row_width::<R>(row)?)?;
    }
    Some(width)
}

// Refuses where so many bytes have no room for the file.
fn room_for<R: Ring>(rows: &[Row<R::Plain>], room: usize) -> Result<(), TooShort>
    ensures { let w = 4 + length (flat_map (record_bytes R.exact) (map (row_view R.exact R.listed) rows.now)) in MatchResult result (λ _. w ≤ room) (λ _. room < w) }
{
    match file_width::<R>(rows) {
        Some(width) if width <= room => Ok(()),
        _ => Err(TooShort),
    }
}

// The header: the depth, and the number of records in two bytes, high byte first.
fn header<R: Ring>(job: &RingJob<R>, count: usize) -> [u8; 3]
    requires { count ≤ most_pieces }
    ensures { result ≡ (job_numbers R.exact R.value job.now).depth ∷ (count / 256) ∷ (count % 256) ∷ [] }
{
    let [high, low] = (count as u16).to_be_bytes();
    [job.depth as u8, high, low]
}

// The descents of a cursor, 0 where nothing is left.
fn last_descents(cursor: &Option<Cursor>) -> u8
    ensures { result ≡ last_byte (cursor_at cursor.now) }
{
    match cursor {
        Some(c) => c.descents,
        None => 0,
    }
}

// Writes a sheet, the records of so many rows and the cursor, in front of the buffer, and answers how many bytes it has.
// Refused where the rows are more than a list may hold or cannot be read, and where the buffer is too short; then nothing is written.
pub fn save<R: Ring>(
    job: &RingJob<R>,
    cursor: &Option<Cursor>,
    count: usize,
    list: &[Row<R::Plain>],
    buffer: &mut [u8],
) -> Result<usize, SaveFault>
    ensures { let N = job_numbers R.exact R.value job.now in let s = sheet_of R.exact R.listed cursor.now count list.now in MatchResult result
        (λ n. (n ≡ length (saved R.exact N s)) × (buffer.new ≡ saved R.exact N s ++ drop n buffer.old) × (count ≤ most_pieces) × (length s.records ≡ count) × AllByRecursion (Fits R.exact N) s.records)
        (λ f. Unsaved R.exact N (length list.now) count (length buffer.old) s f × (buffer.new ≡ buffer.old)) }
{
    if count > MOST_PIECES {
        return Err(SaveFault::List(ListFault::BeyondLimits));
    }
    let rows = fit_rows(job, list, count)?;
    room_for::<R>(rows, buffer.len())?;
    let at = put(buffer, 0, &header(job, count));
    let at = put_rows::<R>(buffer, at, rows);
    Ok(put(buffer, at, &[last_descents(cursor)]))
}
