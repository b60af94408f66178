// Whether a file is a lawful save, judged as though any list were long enough.
ghost use Rattle.std.specs.Prelude.{◌≡◌, ℕ, ◌≤◌, List, length, drop, replicate, None, Some, Ok, Err, IfOk, MatchOption, MatchResult, slice_set};
ghost use Rattle.std.specs.Option.{option_map};
ghost use Rattle.jobs.specs.Limits.{most_depth};
ghost use Rattle.ring_jobs.specs.RingJobs.{job_numbers};
ghost use Rattle.calls.specs.Limits.{most_pieces};
ghost use Rattle.calls.specs.Records.{Record};
ghost use Rattle.calls.specs.Sheets.{Sheet, start};
ghost use Rattle.calls.specs.Moves.{descending, replayed};
ghost use Rattle.calls.specs.Views.{cursor_at};
ghost use Rattle.files.specs.Files.{restored};
ghost use Rattle.files.specs.Judging.{scanned, judged};
ghost use Rattle.saves.specs.Faults.{offset_of};
ghost use Rattle.saves.specs.Records.{sheet_with};
ghost use Rattle.saves.specs.Filled.{Filled};

use crate::fault::FileFault;
use crate::reading::{descended_by, read_record};
use calls::cursor::Cursor;
use calls::limits::MOST_PIECES;
use calls::row::Row;
use placer::placer::Placer;
use ring_jobs::job::RingJob;
use rings::ring::Ring;

// What a lawful save leads to: a sheet's cursor, and how many records it has.
#[derive(Debug, Clone, Copy)]
pub struct Judged {
    pub cursor: Option<Cursor>,
    pub count: usize,
}

// How far the records of a file reach: the cursor behind them, and the offset of what follows.
#[derive(Clone, Copy)]
struct Reached {
    cursor: Option<Cursor>,
    at: usize,
}

// The number of records that a file's header tells; None where it is cut, of another depth, or tells more than a list may hold.
fn counted<R: Ring>(job: &RingJob<R>, file: &[u8]) -> Option<usize>
    ensures { let N = job_numbers R.exact R.value job.now in MatchOption result
        (judged R.exact N file.now ≡ Err 0)
        (λ n. (3 ≤ length file.now) × (n ≤ most_pieces) × (judged R.exact N file.now ≡ scanned R.exact N n 3 (start R.exact N) (drop 3 file.now))) }
{
    let [depth, high, low, ..] = file else {
        return None;
    };
    let count = usize::from(u16::from_be_bytes([*high, *low]));
    if u32::from(*depth) != job.depth || count > MOST_PIECES {
        return None;
    }
    Some(count)
}

// Writes a row at a place of a list, where the list has that place.
fn put_at<C: Copy>(list: &mut [Row<C>], k: usize, row: Row<C>)
    ensures { list.new ≡ slice_set list.old k row }
{
    if k < list.len() {
        list[k] = row;
    }
}

// Reads so many records behind the header of a file; their rows go into the list, as far as it has places.
fn read_records<P: Placer>(
    placer: &mut P,
    count: usize,
    file: &[u8],
    list: &mut [Row<<P::R as Ring>::Plain>],
) -> Result<Reached, FileFault>
    requires header { 3 ≤ length file.now }
    requires limit { count ≤ most_pieces }
    ensures answer { P.Placer.sound placer.old → let N = P.Placer.plan placer.old in MatchResult result
        (λ q. (rs : List (Record P.R.Ring.exact)) × (length rs ≡ count)
        × (scanned P.R.Ring.exact N count 3 (start P.R.Ring.exact N) (drop 3 file.now) ≡ scanned P.R.Ring.exact N 0 q.at (sheet_with P.R.Ring.exact q.cursor rs) (drop q.at file.now))
        × Filled P.R.Ring.exact P.R.Ring.listed rs list.old list.new)
        (λ f. scanned P.R.Ring.exact N count 3 (start P.R.Ring.exact N) (drop 3 file.now) ≡ Err (offset_of f)) }
    ensures within { IfOk result (λ q. q.at ≤ length file.now) }
    ensures kept { P.Placer.plan placer.new ≡ P.Placer.plan placer.old }
    ensures sound { P.Placer.sound placer.old → P.Placer.sound placer.new }
{
    let mut cursor = Cursor::first(placer.job());
    let mut at = 3;
    for k in 0..count {
        let Some(read) = read_record(placer, &cursor, &file[at..]) else {
            return Err(FileFault::NotASave(at));
        };
        put_at(list, k, read.row);
        cursor = read.cursor;
        at += read.used;
    }
    Ok(Reached { cursor, at })
}

// A sheet's cursor after so many descents, if they are accepted; where nothing is pending, none is.
fn last_cursor<R: Ring>(
    job: &RingJob<R>,
    cursor: Option<Cursor>,
    descents: u8,
) -> Option<Option<Cursor>>
    ensures { let N = job_numbers R.exact R.value job.now in
        (rs : List (Record R.exact)) → replayed R.exact N most_pieces (replicate descents descending) (sheet_with R.exact cursor rs) ≡ option_map (λ c. sheet_with R.exact c rs) result }
{
    match cursor {
        Some(from) => Some(Some(descended_by(job, from, descents)?)),
        None if descents == 0 => Some(None),
        None => None,
    }
}

// The end of a file behind its records: the last byte, and nothing more.
fn ended<R: Ring>(
    job: &RingJob<R>,
    reached: Reached,
    file: &[u8],
) -> Result<Option<Cursor>, FileFault>
    ensures { let N = job_numbers R.exact R.value job.now in (rs : List (Record R.exact)) → MatchResult result
        (λ c. scanned R.exact N 0 reached.at (sheet_with R.exact reached.cursor rs) (drop reached.at file.now) ≡ Ok (sheet_with R.exact c rs))
        (λ f. scanned R.exact N 0 reached.at (sheet_with R.exact reached.cursor rs) (drop reached.at file.now) ≡ Err (offset_of f)) }
{
    let at = reached.at;
    let Some(last) = file.get(at) else {
        return Err(FileFault::NotASave(at));
    };
    let Some(cursor) = last_cursor(job, reached.cursor, *last) else {
        return Err(FileFault::NotASave(at));
    };
    if at + 1 != file.len() {
        return Err(FileFault::NotASave(at + 1));
    }
    Ok(cursor)
}

// Judges a file whole; the rows of its records go into the list, as far as it has places.
pub(crate) fn scan<P: Placer>(
    placer: &mut P,
    file: &[u8],
    list: &mut [Row<<P::R as Ring>::Plain>],
) -> Result<Judged, FileFault>
    ensures answer { P.Placer.sound placer.old → let N = P.Placer.plan placer.old in MatchResult result
        (λ j. (rs : List (Record P.R.Ring.exact)) × (judged P.R.Ring.exact N file.now ≡ Ok (sheet_with P.R.Ring.exact j.cursor rs)) × (j.count ≡ length rs) × Filled P.R.Ring.exact P.R.Ring.listed rs list.old list.new)
        (λ f. judged P.R.Ring.exact N file.now ≡ Err (offset_of f)) }
    ensures shallow { (P.Placer.plan placer.old).depth ≤ most_depth }
    ensures limit { IfOk result (λ j. j.count ≤ most_pieces) }
    ensures kept { P.Placer.plan placer.new ≡ P.Placer.plan placer.old }
    ensures sound { P.Placer.sound placer.old → P.Placer.sound placer.new }
{
    let Some(count) = counted(placer.job(), file) else {
        return Err(FileFault::NotASave(0));
    };
    let reached = read_records(placer, count, file, list)?;
    let cursor = ended(placer.job(), reached, file)?;
    Ok(Judged { cursor, count })
}

// Whether a file is a lawful save, of a sheet with any number of records that a list may hold; and else where it goes wrong.
pub fn judge<P: Placer>(placer: &mut P, file: &[u8]) -> Result<Judged, FileFault>
    ensures answer { P.Placer.sound placer.old → let N = P.Placer.plan placer.old in MatchResult result
        (λ j. (t : Sheet P.R.Ring.exact) × (judged P.R.Ring.exact N file.now ≡ Ok t) × (restored P.R.Ring.exact N file.now ≡ Some t) × (cursor_at j.cursor ≡ t.cursor) × (j.count ≡ length t.records))
        (λ f. (judged P.R.Ring.exact N file.now ≡ Err (offset_of f)) × (restored P.R.Ring.exact N file.now ≡ None)) }
    ensures kept { P.Placer.plan placer.new ≡ P.Placer.plan placer.old }
    ensures sound { P.Placer.sound placer.old → P.Placer.sound placer.new }
{
    let mut no_places = [];
    scan(placer, file, &mut no_places)
}
