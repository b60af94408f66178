// Where a node lies: down from the seed, child by child.
ghost use Rattle.std.specs.Prelude.{◌≡◌, true, if◌then◌else◌};
ghost use Rattle.chains.specs.Addresses.{has_node, leads_down, node_placement};
ghost use Rattle.edges.specs.Views.{placement_view};
ghost use Rattle.ring_jobs.specs.RingJobs.{job_numbers};
ghost use Rattle.chains.specs.Books.{book_of};
ghost use Rattle.nodes.specs.OnPlane.{kept_corners};
ghost use Rattle.nodes.specs.Table.{there, outside, child_entry, cornered, kept_way, table};
ghost use Rattle.nodes.specs.Views.{address_view, entry_of};

use crate::address::Address;
use crate::composing::{child_under, corners_kept};
use crate::fault::PlaceFault;
use crate::lookups::{child_row, seed_row};
use edges::rows::Placed;
use ring_jobs::job::RingJob;
use rings::ring::Ring;

// Whether child numbers lead down from tile t. (A bool, and no Option with `?`: nobody asks for the last tile.)
fn path_leads_down<R: Ring>(job: &RingJob<R>, t: usize, children: &[u8]) -> bool
    ensures { result ≡ leads_down (job_numbers R.exact R.value job.now) t children.now }
{
    let mut tile = t;
    for k in children {
        match child_row(job, tile, usize::from(*k)) {
            Some(child) => tile = child.tile,
            None => return false,
        }
    }
    true
}

// Whether the job has a node of that address.
pub fn is_node<R: Ring>(job: &RingJob<R>, at: &Address) -> bool
    ensures { result ≡ has_node (job_numbers R.exact R.value job.now) (address_view at.now) }
{
    if u32::from(at.level) > job.depth {
        return false;
    }
    // A match: tried by `is_some_and`, whose closure left the goal `returns` open.
    match seed_row(job, usize::from(at.seed)) {
        Some(seed) => path_leads_down(job, seed.tile, at.children()),
        None => false,
    }
}

// Child k of a placed tile, placed: its own corners are not looked at.
pub fn child_number<R: Ring>(
    job: &RingJob<R>,
    above: &Placed<R>,
    k: usize,
) -> Result<Placed<R>, PlaceFault>
    ensures { entry_of R.exact R.value result ≡ child_entry R.exact (job_numbers R.exact R.value job.now) (placement_view R.exact R.value above.now) k }
{
    let child = child_row(job, above.tile, k).ok_or(PlaceFault::NoNode)?;
    Ok(child_under(&job.book, above, &child)?)
}

// The node's placement: its own corners are not looked at.
fn placed_below<R: Ring>(job: &RingJob<R>, at: &Address) -> Result<Placed<R>, PlaceFault>
    requires { has_node (job_numbers R.exact R.value job.now) (address_view at.now) ≡ true }
    ensures { let N = job_numbers R.exact R.value job.now in entry_of R.exact R.value result ≡ (if kept_way R.exact N (address_view at.now) then there (node_placement R.exact N (address_view at.now)) else outside) }
{
    let mut placed = seed_row(job, usize::from(at.seed)).ok_or(PlaceFault::NoNode)?;
    for k in at.children() {
        placed = child_number(job, &placed, usize::from(*k))?;
    }
    Ok(placed)
}

// A placed tile whose own corners are on the plane.
fn with_corners<R: Ring>(job: &RingJob<R>, placed: Placed<R>) -> Result<Placed<R>, PlaceFault>
    ensures { entry_of R.exact R.value result ≡ (if kept_corners R.exact (book_of R.exact (job_numbers R.exact R.value job.now)) (placement_view R.exact R.value placed) then there (placement_view R.exact R.value placed) else outside) }
{
    corners_kept(&job.book, &placed)?;
    Ok(placed)
}

// The table's entry for an address: where the node lies, 3 where the job has no such node, else 8 where it is off the plane.
pub fn placement<R: Ring>(job: &RingJob<R>, at: &Address) -> Result<Placed<R>, PlaceFault>
    ensures { entry_of R.exact R.value result ≡ table R.exact (job_numbers R.exact R.value job.now) (address_view at.now) }
{
    if !is_node(job, at) {
        return Err(PlaceFault::NoNode);
    }
    let placed = placed_below(job, at)?;
    with_corners(job, placed)
}

// Child k of a placed tile with its own corners: of a node above the depth, the table's entry for its child k.
pub fn child_placement<R: Ring>(
    job: &RingJob<R>,
    above: &Placed<R>,
    k: usize,
) -> Result<Placed<R>, PlaceFault>
    ensures { let N = job_numbers R.exact R.value job.now in entry_of R.exact R.value result ≡ cornered R.exact N (child_entry R.exact N (placement_view R.exact R.value above.now) k) }
{
    let placed = child_number(job, above, k)?;
    with_corners(job, placed)
}
