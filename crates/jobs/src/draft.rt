// The front of a job, as far as its lines are read.
ghost use Rattle.std.specs.Prelude.{◌≡◌, ◌<◌, vec_len};
ghost use Rattle.std.specs.Option.{ForSome};
ghost use Rattle.jobs.specs.Begun.{order_in, rank_in};
ghost use Rattle.jobs.specs.declared.draft.Misfit.TheVariants.{Memory};

use crate::ring::NamedRing;
use crate::rows::{Part, Placed, Tile};
use std::alloc::{AllocError, AllocFailed};

// What an L line says. The label's subdivision comes later, with its S line.
#[derive(Drop)]
pub struct Head {
    pub arrowed: bool,
    pub length: Vec<i64>,
}

// The tile whose children are being read is begun; it joins the tiles at the next T line or at the D line. Heads and subdivisions are
// two lists, since all L lines come before the S lines: while they are read the one is longer than the other.
#[derive(Drop)]
pub struct Draft {
    pub ring: Option<NamedRing>,
    pub factor: Option<Vec<i64>>,
    pub heads: Vec<Head>,
    pub subdivisions: Vec<Vec<Part>>,
    pub tiles: Vec<Tile>,
    pub begun: Option<Tile>,
    pub depth: Option<u32>,
    pub seeds: Vec<Placed>,
    ghost filled: { ForSome factor (λ v. 0 < vec_len v) },
    ghost outlined: { ForSome begun (λ t. 0 < vec_len t.outline) },
}

impl Draft {
    // The ring's order, or 0 before the R line. (0 and no Option, for this and for the rank: that a ring is there by the time that
    // they are asked for stands in no contract of a line's place, so an Option would have to be refused once more.)
    pub(crate) fn order(&self) -> u32
        ensures { result ≡ order_in self.now.ring }
    {
        match self.ring {
            Some(ring) => ring.order(),
            None => 0,
        }
    }

    // The ring's rank, or 0 before the R line.
    pub(crate) fn rank(&self) -> usize
        ensures { result ≡ rank_in self.now.ring }
    {
        match self.ring {
            Some(ring) => ring.rank(),
            None => 0,
        }
    }
}

// Why a line is not added: its letter has no place, its numbers do not fit, or there was no memory for them.
#[derive(Debug, Clone, Copy, PartialEq, Eq)]
pub enum Misfit {
    Place,
    Numbers,
    Memory,
}

impl<T: Drop> From<AllocFailed<T>> for Misfit {
    ghost from_gives = { λ _ r. r ≡ Memory };

    fn from(_value: AllocFailed<T>) -> Misfit {
        Misfit::Memory
    }
}

impl From<AllocError> for Misfit {
    ghost from_gives = { λ _ r. r ≡ Memory };

    fn from(_value: AllocError) -> Misfit {
        Misfit::Memory
    }
}
