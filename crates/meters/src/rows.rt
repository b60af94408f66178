// What a meter reads off a piece list.
ghost use Rattle.std.specs.Prelude.{◌≡◌, [], length, MatchResult, IsOk};
ghost use Rattle.chains.specs.Books.{book_of};
ghost use Rattle.chains.specs.Counts.{reading};
ghost use Rattle.chains.specs.Placements.{outlines};
ghost use Rattle.chains.specs.Theorems.{RealLengths};
ghost use Rattle.edges.specs.Answers.{Worked};
ghost use Rattle.ring_jobs.specs.RingJobs.{job_numbers};
ghost use Rattle.calls.specs.Records.{records, laid_view, with_laid, laid_pieces};
ghost use Rattle.calls.specs.Fits.{PieceOnPlane};
ghost use Rattle.meters.specs.Pieces.{CornersKept, Readable, Unreadable};

use crate::meter::Meter;
use crate::pieces::reading_of_piece;
use calls::fault::ListFault;
use calls::lists::fit_rows;
use calls::row::Row;
use job_rows::Placed;
use ring_jobs::job::RingJob;
use rings::fault::RingFault;
use rings::group::Group;
use rings::ring::Ring;

// The reading of a row's laid piece; nothing where the node was set aside.
fn reading_of_row<R: Ring, M: Meter<R>>(
    job: &RingJob<R>,
    meter: &M,
    row: &Row<R::Plain>,
) -> Result<M::Value, RingFault>
    ensures { let E = R.exact in let N = job_numbers E R.value job.now in let laid = laid_view E R.listed row.now.laid in Worked result
        (λ v. RealLengths E (book_of E N) → M.worth v ≡ reading M.group (M.reads meter.now E R.value (book_of E N)) (outlines E (book_of E N) (with_laid laid [])))
        (PieceOnPlane E N laid × CornersKept E N (with_laid laid [])) }
{
    match &row.laid {
        Some(piece) => {
            let placed = Placed {
                tile: piece.tile,
                turn: piece.turn,
                mirrored: piece.mirrored,
                place: R::from_plain(piece.place)?,
            };
            reading_of_piece(&job.book, meter, &placed)
        }
        None => Ok(M::Value::zero()),
    }
}

// The readings of the laid pieces of so many records, added up. A list is refused as `fit_rows` refuses it, and where a piece's own
// corners leave the plane: a sheet lays no such piece.
pub fn reading_of_rows<R: Ring, M: Meter<R>>(
    job: &RingJob<R>,
    meter: &M,
    list: &[Row<R::Plain>],
    count: usize,
) -> Result<M::Value, ListFault>
    ensures reads { let E = R.exact in let N = job_numbers E R.value job.now in let rs = records E R.listed count list.now in MatchResult result
        (λ v. Readable E N (length list.now) count rs
        × (RealLengths E (book_of E N) → M.worth v ≡ reading M.group (M.reads meter.now E R.value (book_of E N)) (outlines E (book_of E N) (laid_pieces rs))))
        (λ f. Unreadable E N (length list.now) count rs f) }
    ensures reads_all_that_fit { let N = job_numbers R.exact R.value job.now in Readable R.exact N (length list.now) count (records R.exact R.listed count list.now) → IsOk result }
{
    let rows = fit_rows(job, list, count)?;
    let mut sum = M::Value::zero();
    for row in rows {
        let value = reading_of_row(job, meter, row)?;
        sum = sum.sum(value);
    }
    Ok(sum)
}
