// Why no chain is made.
ghost use Rattle.std.specs.Prelude.{◌≡◌};
ghost use Rattle.edges.specs.Faults.{chain_refusal};
ghost use Rattle.edges.specs.declared.fault.ChainFault.TheVariants.{Ring, Memory};

use refusals::{Fault, Layer};
use rings::fault::RingFault;
use std::alloc::{AllocError, AllocFailed};

#[derive(Debug, Clone, Copy, PartialEq, Eq)]
pub enum ChainFault {
    // The ring's refusal, whole.
    Ring(RingFault),
    // No memory for the chain.
    Memory,
}

impl Fault for ChainFault {
    ghost refusal = { chain_refusal };

    fn number(&self) -> Option<u8> {
        match self {
            ChainFault::Ring(f) => f.number(),
            ChainFault::Memory => None,
        }
    }

    fn place(&self) -> usize {
        match self {
            ChainFault::Ring(f) => f.place(),
            ChainFault::Memory => 0,
        }
    }

    fn layer(&self) -> Layer {
        match self {
            ChainFault::Ring(f) => f.layer(),
            ChainFault::Memory => Layer::Book,
        }
    }
}

impl From<RingFault> for ChainFault {
    ghost from_gives = { λ f r. r ≡ Ring f };

    fn from(f: RingFault) -> ChainFault {
        ChainFault::Ring(f)
    }
}

impl<T: Drop> From<AllocFailed<T>> for ChainFault {
    ghost from_gives = { λ _ r. r ≡ Memory };

    fn from(_refused: AllocFailed<T>) -> ChainFault {
        ChainFault::Memory
    }
}

impl From<AllocError> for ChainFault {
    ghost from_gives = { λ _ r. r ≡ Memory };

    fn from(_refused: AllocError) -> ChainFault {
        ChainFault::Memory
    }
}
