// From a node to the next one, which is not below it.
ghost use Rattle.std.specs.Prelude.{◌≡◌, ◌<◌, None};
ghost use Rattle.chains.specs.Addresses.{seed_address, child_tile, seed_tile, next_child, next_path, seed_on, advance};
ghost use Rattle.ring_jobs.specs.RingJobs.{job_numbers};
ghost use Rattle.nodes.specs.Views.{address_view, address_at, ancestor, further};

use crate::address::Address;
use crate::lookups::{child_row, seed_row};
use ring_jobs::job::RingJob;
use rings::ring::Ring;

// A job's seed tile of that number, if there is one.
fn seed_numbered<R: Ring>(job: &RingJob<R>, seed: usize) -> Option<Address>
    ensures { address_at result ≡ seed_on (job_numbers R.exact R.value job.now) seed }
{
    let _ = seed_row(job, seed)?;
    Some(Address::of_seed(seed as u16))
}

// The first seed tile.
pub fn first_seed<R: Ring>(job: &RingJob<R>) -> Option<Address>
    ensures { address_at result ≡ seed_on (job_numbers R.exact R.value job.now) 0 }
{
    seed_numbered(job, 0)
}

// The tile that seed tile k is of, 0 if there is no such seed tile.
fn tile_of_seed<R: Ring>(job: &RingJob<R>, k: usize) -> usize
    ensures { result ≡ seed_tile (job_numbers R.exact R.value job.now) k }
{
    seed_row(job, k).map_or(0, |seed| seed.tile)
}

// The tile that child k of tile t is of, 0 if there is no such child.
fn tile_of_child<R: Ring>(job: &RingJob<R>, t: usize, k: usize) -> usize
    ensures { result ≡ child_tile (job_numbers R.exact R.value job.now) t k }
{
    child_row(job, t, k).map_or(0, |child| child.tile)
}

// Child k + 1 of the node's ancestor at a level, a tile t, if there is such a child.
fn child_after<R: Ring>(
    job: &RingJob<R>,
    at: &Address,
    level: usize,
    t: usize,
    k: u8,
) -> Option<Address>
    requires { level < at.now.level }
    ensures { address_at result ≡ further (ancestor at.now level) (next_child (job_numbers R.exact R.value job.now) t k None) }
{
    let next = usize::from(k) + 1;
    let _ = child_row(job, t, next)?;
    let mut path = at.path;
    path[level] = next as u8;
    Some(Address {
        seed: at.seed,
        level: level as u8 + 1,
        path,
    })
}

// The next child beside the node or, where there is none, beside its parent, and so on up; none beside seed tiles.
// It goes down the path and keeps the last that it finds: a tile is known from the one above it, and not from the one below.
fn later_child<R: Ring>(job: &RingJob<R>, at: &Address) -> Option<Address>
    ensures { let N = job_numbers R.exact R.value job.now in address_at result ≡ further (seed_address at.now.seed) (next_path N (seed_tile N at.now.seed) (address_view at.now).path) }
{
    let mut tile = tile_of_seed(job, usize::from(at.seed));
    let mut nearest = None;
    for (level, k) in at.children().iter().enumerate() {
        nearest = child_after(job, at, level, tile, *k).or(nearest);
        tile = tile_of_child(job, tile, usize::from(*k));
    }
    nearest
}

// The next child of the same parent, else as from the parent; from a seed tile, the next seed tile; after the last, none.
pub fn advanced<R: Ring>(job: &RingJob<R>, at: &Address) -> Option<Address>
    ensures { address_at result ≡ advance (job_numbers R.exact R.value job.now) (address_view at.now) }
{
    later_child(job, at).or_else(|| seed_numbered(job, usize::from(at.seed) + 1))
}
