// The rows of a list, judged before they are read.
ghost use Rattle.std.specs.Prelude.{◌≡◌, ◌<◌, length, take, map, Some, MatchResult};
ghost use Rattle.std.specs.List.{AllByRecursion};
ghost use Rattle.ring_jobs.specs.RingJobs.{job_numbers};
ghost use Rattle.calls.specs.Records.{records, row_view, piece_view};
ghost use Rattle.calls.specs.Fits.{NamesTile, PieceOnPlane, PieceUnfit, Fits, Unfit, FirstUnfit, ListUnfit};

use crate::fault::ListFault;
use crate::row::Row;
use faults::TooShort;
use job_rows::Placed;
use ring_jobs::job::RingJob;
use rings::ring::Ring;

// The most descents of a record: the levels of a path.
const MOST_DESCENTS: u8 = 12;

// A laid piece names a tile of the book, and lies on the plane.
fn fit_piece<R: Ring>(job: &RingJob<R>, piece: &Placed<R::Plain>) -> Result<(), ListFault>
    ensures { let N = job_numbers R.exact R.value job.now in let p = Some (piece_view R.exact R.listed piece.now) in MatchResult result
        (λ _. NamesTile R.exact N p × PieceOnPlane R.exact N p)
        (λ f. PieceUnfit R.exact N p f) }
{
    if piece.tile >= job.book.tiles.len() {
        return Err(ListFault::BeyondLimits);
    }
    R::from_plain(piece.place)?;
    Ok(())
}

// A row is within the limits, and its piece on the plane.
pub fn fit_row<R: Ring>(job: &RingJob<R>, row: &Row<R::Plain>) -> Result<(), ListFault>
    ensures { let N = job_numbers R.exact R.value job.now in MatchResult result
        (λ _. Fits R.exact N (row_view R.exact R.listed row.now))
        (λ f. Unfit R.exact N (row_view R.exact R.listed row.now) f) }
{
    if row.descents > MOST_DESCENTS {
        return Err(ListFault::BeyondLimits);
    }
    match &row.laid {
        Some(piece) => fit_piece(job, piece),
        None => Ok(()),
    }
}

// All rows fit, or the first that does not is refused.
fn fit_all<R: Ring>(job: &RingJob<R>, rows: &[Row<R::Plain>]) -> Result<(), ListFault>
    ensures { let N = job_numbers R.exact R.value job.now in MatchResult result
        (λ _. AllByRecursion (Fits R.exact N) (map (row_view R.exact R.listed) rows.now))
        (λ f. FirstUnfit R.exact N (map (row_view R.exact R.listed) rows.now) f) }
{
    for row in rows {
        fit_row(job, row)?;
    }
    Ok(())
}

// The rows of so many records, which all fit.
pub fn fit_rows<'a, R: Ring>(
    job: &RingJob<R>,
    list: &'a [Row<R::Plain>],
    count: usize,
) -> Result<&'a [Row<R::Plain>], ListFault>
    ensures { let N = job_numbers R.exact R.value job.now in MatchResult result
        (λ rows. (rows.now ≡ take count list.now) × (length rows.now ≡ count) × AllByRecursion (Fits R.exact N) (records R.exact R.listed count list.now))
        (λ f. ListUnfit R.exact N (length list.now) count (records R.exact R.listed count list.now) f) }
{
    let rows = list.get(..count).ok_or(TooShort)?;
    fit_all(job, rows)?;
    Ok(rows)
}
