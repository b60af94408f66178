// Why the rows of a list cannot be read.
ghost use Rattle.std.specs.Prelude.{◌≡◌};
ghost use Rattle.calls.specs.Faults.{list_refusal};
ghost use Rattle.calls.specs.declared.fault.ListFault.TheVariants.{Short, Ring};

use faults::TooShort;
use refusals::{Fault, Layer};
use rings::fault::RingFault;

// A list that a sheet's calls have filled is never refused: it was altered behind the sheet's back.
#[derive(Debug, Clone, Copy, PartialEq, Eq)]
pub enum ListFault {
    // The list has fewer rows than the sheet has records.
    Short(TooShort),
    // A row's tile is beyond the book's last, or its descents are more than a path has levels.
    BeyondLimits,
    // The ring's fault, whole: a row's place is off the plane.
    Ring(RingFault),
}

impl Fault for ListFault {
    ghost refusal = { list_refusal };

    fn number(&self) -> Option<u8> {
        match self {
            ListFault::Short(f) => f.number(),
            ListFault::BeyondLimits => Some(3),
            ListFault::Ring(f) => f.number(),
        }
    }

    fn place(&self) -> usize {
        match self {
            ListFault::Short(f) => f.place(),
            ListFault::BeyondLimits => 0,
            ListFault::Ring(f) => f.place(),
        }
    }

    fn layer(&self) -> Layer {
        match self {
            ListFault::Short(f) => f.layer(),
            ListFault::BeyondLimits => Layer::Sheet,
            ListFault::Ring(f) => f.layer(),
        }
    }
}

impl From<TooShort> for ListFault {
    ghost from_gives = { λ f r. r ≡ Short f };

    fn from(f: TooShort) -> ListFault {
        ListFault::Short(f)
    }
}

impl From<RingFault> for ListFault {
    ghost from_gives = { λ f r. r ≡ Ring f };

    fn from(f: RingFault) -> ListFault {
        ListFault::Ring(f)
    }
}
