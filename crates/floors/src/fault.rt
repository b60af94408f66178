// Why a job gives no cutting list.
ghost use Rattle.std.specs.Prelude.{◌≡◌};
ghost use Rattle.floors.specs.Faults.{floor_refusal};
ghost use Rattle.floors.specs.declared.fault.FloorFault.TheVariants.{Sheet, Memory};

use edges::fault::ChainFault;
use refusals::{Fault, Layer};
use sheet::fault::SheetFault;
use std::alloc::AllocError;

#[derive(Debug, Clone, Copy, PartialEq)]
pub enum FloorFault<R> {
    // The sheet's fault, whole.
    Sheet(SheetFault<R>),
    // Memory is wanting.
    Memory,
}

impl<R> Fault for FloorFault<R> {
    ghost refusal = { floor_refusal };

    fn number(&self) -> Option<u8> {
        match self {
            FloorFault::Sheet(f) => f.number(),
            FloorFault::Memory => None,
        }
    }

    fn place(&self) -> usize {
        match self {
            FloorFault::Sheet(f) => f.place(),
            FloorFault::Memory => 0,
        }
    }

    fn layer(&self) -> Layer {
        match self {
            FloorFault::Sheet(f) => f.layer(),
            FloorFault::Memory => Layer::Sheet,
        }
    }
}

impl<R> From<SheetFault<R>> for FloorFault<R> {
    ghost from_gives = { λ f r. r ≡ Sheet f };

    fn from(f: SheetFault<R>) -> FloorFault<R> {
        FloorFault::Sheet(f)
    }
}

impl<R> From<AllocError> for FloorFault<R> {
    ghost from_gives = { λ _ r. r ≡ Memory };

    fn from(_refused: AllocError) -> FloorFault<R> {
        FloorFault::Memory
    }
}
