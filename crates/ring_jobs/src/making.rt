// Ring values from a job's lists.
ghost use Rattle.std.specs.Prelude.{◌≡◌, map, MatchResult};
ghost use Rattle.std.specs.List.{AllByRecursion};
ghost use Rattle.jobs.specs.Rings.{order_of, rank_of};
ghost use Rattle.jobs.specs.Rows.{label_of, placed_of, tile_of};
ghost use Rattle.exact.specs.JobNumbers.{LabelNumbers, PlacedNumbers, TileNumbers};
ghost use Rattle.edges.specs.Answers.{Made};
ghost use Rattle.edges.specs.declared.fault.ChainFault.TheVariants.{Memory};
ghost use Rattle.jobs.specs.Jobs.{numbers};
ghost use Rattle.job_rows.specs.Shapes.{label_with, placed_with, tile_with, numbers_with};
ghost use Rattle.ring_jobs.specs.Fitted.{fitted, relisted_label, relisted_placed, relisted_tile, fitted_job};
ghost use Rattle.ring_jobs.specs.RingJobs.{LabelOnPlane, PlacedOnPlane, TileOnPlane, coefficients, job_numbers};

use crate::job::RingJob;
use edges::fault::ChainFault;
use edges::rows::{Book, Label, Placed, Tile};
use jobs::job::Job;
use jobs::rows::{Label as LabelRow, Placed as PlacedRow, Tile as TileRow};
use rings::ring::Ring;
use std::alloc::Global;

// What is made over a ring of a row of a job's lists.
trait FromRow: Drop {
    type Row;

    // the numbers that a made value and a row stand for
    ghost Numbers: { Type 0 };

    ghost made: { Self → Numbers };

    ghost listed: { Self.Row → Numbers };

    // what the ring reads of a row's numbers, and whether its elements are on the plane
    ghost as_read: { Numbers → Numbers };

    ghost OnPlane: { Numbers → Type 0 };

    fn from_row(heap: Global, row: &Self::Row) -> Result<Self, ChainFault>
        ensures { Made result (λ x. made x ≡ as_read (listed row.now)) (OnPlane (listed row.now)) };
}

// Every row over the ring.
fn all_over<T: FromRow>(heap: Global, rows: &[T::Row]) -> Result<Vec<T>, ChainFault>
    ensures { Made result
        (λ v. map T.made v.items ≡ map T.as_read (map T.listed rows.now))
        (AllByRecursion T.OnPlane (map T.listed rows.now)) }
{
    let mut out = Vec::new(heap);
    for row in rows {
        let made = T::from_row(heap, row)?;
        out.push(made)?;
    }
    Ok(out)
}

// A child or a seed tile.
impl<R: Ring> FromRow for Placed<R> {
    type Row = PlacedRow;

    ghost Numbers = { PlacedNumbers };

    ghost made = { placed_with (coefficients R.exact R.value) };

    ghost listed = { placed_of };

    ghost as_read = { relisted_placed (fitted R.exact.d) };

    ghost OnPlane = { PlacedOnPlane R.exact };

    fn from_row(_heap: Global, row: &PlacedRow) -> Result<Placed<R>, ChainFault> {
        let place = R::make(row.place.as_slice())?;
        Ok(Placed {
            tile: row.tile,
            turn: row.turn,
            mirrored: row.mirrored,
            place,
        })
    }
}

impl<R: Ring> FromRow for Tile<R> {
    type Row = TileRow;

    ghost Numbers = { TileNumbers };

    ghost made = { tile_with (coefficients R.exact R.value) };

    ghost listed = { tile_of };

    ghost as_read = { relisted_tile (fitted R.exact.d) };

    ghost OnPlane = { TileOnPlane R.exact };

    fn from_row(heap: Global, tile: &TileRow) -> Result<Tile<R>, ChainFault> {
        let outline = Vec::from_slice(heap, tile.outline.as_slice())?;
        let children = all_over(heap, tile.children.as_slice())?;
        Ok(Tile { outline, children })
    }
}

impl<R: Ring> FromRow for Label<R> {
    type Row = LabelRow;

    ghost Numbers = { LabelNumbers };

    ghost made = { label_with (coefficients R.exact R.value) };

    ghost listed = { label_of };

    ghost as_read = { relisted_label (fitted R.exact.d) };

    ghost OnPlane = { LabelOnPlane R.exact };

    fn from_row(heap: Global, label: &LabelRow) -> Result<Label<R>, ChainFault> {
        let length = R::make(label.length.as_slice())?;
        let subdivision = Vec::from_slice(heap, label.subdivision.as_slice())?;
        Ok(Label {
            arrowed: label.arrowed,
            length,
            subdivision,
        })
    }
}

// The parts of a job over a ring, put together.
fn assembled<R: Ring>(job: &Job, book: Book<R>, seeds: Vec<Placed<R>>) -> RingJob<R>
    requires { numbers_with (coefficients R.exact R.value) (order_of job.now.ring) (rank_of job.now.ring) book job.now.depth seeds.items ≡ fitted_job R.exact.d (numbers job.now) }
    ensures { job_numbers R.exact R.value result ≡ fitted_job R.exact.d (numbers job.now) }
{
    RingJob {
        order: job.order(),
        rank: job.rank(),
        book,
        depth: job.depth,
        seeds,
    }
}

// The job over a ring. Its coefficients lie far inside the plane, so only memory can be wanting.
// Read over a ring of another rank, each list is cut or filled up with 0; the check then refuses the job.
pub fn over<R: Ring>(heap: Global, job: &Job) -> Result<RingJob<R>, ChainFault>
    ensures { MatchResult result
        (λ j. job_numbers R.exact R.value j ≡ fitted_job R.exact.d (numbers job.now))
        (λ f. f ≡ Memory) }
{
    let factor = R::make(job.book.factor.as_slice())?;
    let labels = all_over(heap, job.book.labels.as_slice())?;
    let tiles = all_over(heap, job.book.tiles.as_slice())?;
    let seeds = all_over(heap, job.seeds.as_slice())?;
    let book = Book {
        factor,
        labels,
        tiles,
    };
    Ok(assembled(job, book, seeds))
}
