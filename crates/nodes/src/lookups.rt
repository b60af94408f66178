// Children and seed tiles by their numbers.
ghost use Rattle.std.specs.Prelude.{◌≡◌, ◌<◌, ◌≤◌, length, MatchOption, slice_index_or};
ghost use Rattle.chains.specs.Addresses.{child_entries, no_entry};
ghost use Rattle.job_rows.specs.Shapes.{placed_with};
ghost use Rattle.ring_jobs.specs.RingJobs.{coefficients, job_numbers};

use edges::rows::Placed;
use ring_jobs::job::RingJob;
use rings::ring::Ring;

// Child k of tile t, if there is one.
pub(crate) fn child_row<R: Ring>(job: &RingJob<R>, t: usize, k: usize) -> Option<Placed<R>>
    ensures { let N = job_numbers R.exact R.value job.now in MatchOption result
        (length (child_entries N t) ≤ k)
        (λ c. (k < length (child_entries N t)) × (slice_index_or (child_entries N t) k no_entry ≡ placed_with (coefficients R.exact R.value) c)) }
{
    job.book.tiles.get(t)?.children.get(k).copied()
}

// Seed tile k, if there is one.
pub(crate) fn seed_row<R: Ring>(job: &RingJob<R>, k: usize) -> Option<Placed<R>>
    ensures { let N = job_numbers R.exact R.value job.now in MatchOption result
        (length N.seeds ≤ k)
        (λ c. (k < length N.seeds) × (slice_index_or N.seeds k no_entry ≡ placed_with (coefficients R.exact R.value) c)) }
{
    job.seeds.get(k).copied()
}
