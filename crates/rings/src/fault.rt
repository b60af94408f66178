ghost use Rattle.rings.specs.Faults.{ring_refusal};

use refusals::{Fault, Layer};

// Why a ring refuses.
#[derive(Debug, Clone, Copy, PartialEq, Eq)]
pub enum RingFault {
    // A coefficient of the result lies beyond the plane's bound, or is too large for a height.
    OffPlane,
}

impl Fault for RingFault {
    ghost refusal = { ring_refusal };

    fn number(&self) -> Option<u8> {
        match self {
            RingFault::OffPlane => Some(8),
        }
    }

    fn place(&self) -> usize {
        match self {
            RingFault::OffPlane => 0,
        }
    }

    fn layer(&self) -> Layer {
        match self {
            RingFault::OffPlane => Layer::Ring,
        }
    }
}
