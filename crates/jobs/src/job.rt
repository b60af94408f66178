// A job, whose numbers are all in range.
ghost use Rattle.job_rows.specs.Shapes.{numbers_with};
ghost use Rattle.jobs.specs.Ranges.{InRange};
ghost use Rattle.jobs.specs.Rings.{order_of, rank_of};
ghost use Rattle.jobs.specs.Rows.{listed};

use crate::ring::NamedRing;
use crate::rows::{Book, Placed};

mod access;
mod write;

#[derive(Drop)]
pub struct Job {
    pub ring: NamedRing,
    pub book: Book,
    pub depth: u32,
    pub seeds: Vec<Placed>,
    ghost in_range: { ∥ InRange (numbers_with listed (order_of ring) (rank_of ring) book depth seeds.items) ∥₁ },
}
