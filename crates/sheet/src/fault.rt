// What a sheet refuses.
ghost use Rattle.std.specs.Prelude.{◌≡◌};
ghost use Rattle.sheet.specs.Faults.{sheet_refusal, save_fault, resume_fault};
ghost use Rattle.sheet.specs.declared.fault.SheetFault.TheVariants.{Check, Place, List, Buffer};

use calls::fault::ListFault;
use faults::TooShort;
use job_check::fault::CheckFault;
use nodes::fault::PlaceFault;
use refusals::{Fault, Layer};
use saves::fault::{FileFault, ResumeFault, SaveFault};

#[derive(Debug, Clone, Copy, PartialEq)]
pub enum SheetFault<R> {
    // No free place for a piece.
    NoRoom,
    // Descending at the depth, or laying above it.
    WrongLevel,
    // No pending node.
    NothingPending,
    // Finishing with a node pending.
    StillPending,
    // The check's fault, whole.
    Check(CheckFault<R>),
    // The placer's fault, whole.
    Place(PlaceFault),
    // The fault of the caller's list, whole.
    List(ListFault),
    // The file's fault, whole.
    File(FileFault),
    // The caller's buffer is too short.
    Buffer(TooShort),
}

impl<R> Fault for SheetFault<R> {
    ghost refusal = { sheet_refusal };

    fn number(&self) -> Option<u8> {
        match self {
            SheetFault::NoRoom => Some(9),
            SheetFault::WrongLevel => Some(10),
            SheetFault::NothingPending => Some(11),
            SheetFault::StillPending => Some(14),
            SheetFault::Check(f) => f.number(),
            SheetFault::Place(f) => f.number(),
            SheetFault::List(f) => f.number(),
            SheetFault::File(f) => f.number(),
            SheetFault::Buffer(f) => f.number(),
        }
    }

    fn place(&self) -> usize {
        match self {
            SheetFault::Check(f) => f.place(),
            SheetFault::Place(f) => f.place(),
            SheetFault::List(f) => f.place(),
            SheetFault::File(f) => f.place(),
            SheetFault::Buffer(f) => f.place(),
            _ => 0,
        }
    }

    fn layer(&self) -> Layer {
        match self {
            SheetFault::Check(f) => f.layer(),
            SheetFault::Place(f) => f.layer(),
            SheetFault::List(f) => f.layer(),
            SheetFault::File(f) => f.layer(),
            SheetFault::Buffer(f) => f.layer(),
            _ => Layer::Sheet,
        }
    }
}

impl<R> From<CheckFault<R>> for SheetFault<R> {
    ghost from_gives = { λ f r. r ≡ Check f };

    fn from(f: CheckFault<R>) -> SheetFault<R> {
        SheetFault::Check(f)
    }
}

impl<R> From<PlaceFault> for SheetFault<R> {
    ghost from_gives = { λ f r. r ≡ Place f };

    fn from(f: PlaceFault) -> SheetFault<R> {
        SheetFault::Place(f)
    }
}

impl<R> From<ListFault> for SheetFault<R> {
    ghost from_gives = { λ f r. r ≡ List f };

    fn from(f: ListFault) -> SheetFault<R> {
        SheetFault::List(f)
    }
}

impl<R> From<TooShort> for SheetFault<R> {
    ghost from_gives = { λ f r. r ≡ Buffer f };

    fn from(f: TooShort) -> SheetFault<R> {
        SheetFault::Buffer(f)
    }
}

impl<R> From<SaveFault> for SheetFault<R> {
    ghost from_gives = { λ f r. r ≡ save_fault f };

    fn from(f: SaveFault) -> SheetFault<R> {
        match f {
            SaveFault::List(f) => SheetFault::List(f),
            SaveFault::Buffer(f) => SheetFault::Buffer(f),
        }
    }
}

impl<R> From<ResumeFault> for SheetFault<R> {
    ghost from_gives = { λ f r. r ≡ resume_fault f };

    fn from(f: ResumeFault) -> SheetFault<R> {
        match f {
            ResumeFault::File(f) => SheetFault::File(f),
            ResumeFault::NoRoom => SheetFault::NoRoom,
        }
    }
}
