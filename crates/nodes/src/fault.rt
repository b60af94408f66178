// Why an address has no placement.
ghost use Rattle.std.specs.Prelude.{◌≡◌};
ghost use Rattle.nodes.specs.Faults.{place_refusal};
ghost use Rattle.nodes.specs.declared.fault.PlaceFault.TheVariants.{Ring};

use refusals::{Fault, Layer};
use rings::fault::RingFault;

#[derive(Debug, Clone, Copy, PartialEq, Eq)]
pub enum PlaceFault {
    // The job has no node of that address.
    NoNode,
    // The ring's refusal, whole: the node is off the plane.
    Ring(RingFault),
}

impl Fault for PlaceFault {
    ghost refusal = { place_refusal };

    fn number(&self) -> Option<u8> {
        match self {
            PlaceFault::NoNode => Some(3),
            PlaceFault::Ring(f) => f.number(),
        }
    }

    fn place(&self) -> usize {
        match self {
            PlaceFault::NoNode => 0,
            PlaceFault::Ring(f) => f.place(),
        }
    }

    fn layer(&self) -> Layer {
        match self {
            PlaceFault::NoNode => Layer::Sheet,
            PlaceFault::Ring(f) => f.layer(),
        }
    }
}

impl From<RingFault> for PlaceFault {
    ghost from_gives = { λ f r. r ≡ Ring f };

    fn from(f: RingFault) -> PlaceFault {
        PlaceFault::Ring(f)
    }
}
