// Why a sheet is not saved, and why a file is not resumed from.
ghost use Rattle.std.specs.Prelude.{◌≡◌};
ghost use Rattle.saves.specs.Faults.{file_refusal, save_refusal, resume_refusal};
ghost use Rattle.saves.specs.declared.fault.SaveFault.TheVariants.{List, Buffer};
ghost use Rattle.saves.specs.declared.fault.ResumeFault.TheVariants.{File};

use calls::fault::ListFault;
use faults::TooShort;
use refusals::{Fault, Layer};

// Why bytes are no lawful save.
#[derive(Debug, Clone, Copy, PartialEq, Eq)]
pub enum FileFault {
    // No save goes on as the file does from this offset on.
    NotASave(usize),
}

impl Fault for FileFault {
    ghost refusal = { file_refusal };

    fn number(&self) -> Option<u8> {
        match self {
            FileFault::NotASave(_) => Some(12),
        }
    }

    fn place(&self) -> usize {
        match self {
            FileFault::NotASave(offset) => *offset,
        }
    }

    fn layer(&self) -> Layer {
        Layer::File
    }
}

// Why a sheet is not saved.
#[derive(Debug, Clone, Copy, PartialEq, Eq)]
pub enum SaveFault {
    // The list's rows are no records that a sheet can have.
    List(ListFault),
    // The buffer is shorter than the file.
    Buffer(TooShort),
}

impl Fault for SaveFault {
    ghost refusal = { save_refusal };

    fn number(&self) -> Option<u8> {
        match self {
            SaveFault::List(f) => f.number(),
            SaveFault::Buffer(f) => f.number(),
        }
    }

    fn place(&self) -> usize {
        match self {
            SaveFault::List(f) => f.place(),
            SaveFault::Buffer(f) => f.place(),
        }
    }

    fn layer(&self) -> Layer {
        match self {
            SaveFault::List(f) => f.layer(),
            SaveFault::Buffer(f) => f.layer(),
        }
    }
}

impl From<ListFault> for SaveFault {
    ghost from_gives = { λ f r. r ≡ List f };

    fn from(f: ListFault) -> SaveFault {
        SaveFault::List(f)
    }
}

impl From<TooShort> for SaveFault {
    ghost from_gives = { λ f r. r ≡ Buffer f };

    fn from(f: TooShort) -> SaveFault {
        SaveFault::Buffer(f)
    }
}

// Why a sheet is not resumed.
#[derive(Debug, Clone, Copy, PartialEq, Eq)]
pub enum ResumeFault {
    // The file is no lawful save.
    File(FileFault),
    // The list has fewer usable places than the file has records.
    NoRoom,
}

impl Fault for ResumeFault {
    ghost refusal = { resume_refusal };

    fn number(&self) -> Option<u8> {
        match self {
            ResumeFault::File(f) => f.number(),
            ResumeFault::NoRoom => Some(9),
        }
    }

    fn place(&self) -> usize {
        match self {
            ResumeFault::File(f) => f.place(),
            ResumeFault::NoRoom => 0,
        }
    }

    fn layer(&self) -> Layer {
        match self {
            ResumeFault::File(f) => f.layer(),
            ResumeFault::NoRoom => Layer::Sheet,
        }
    }
}

impl From<FileFault> for ResumeFault {
    ghost from_gives = { λ f r. r ≡ File f };

    fn from(f: FileFault) -> ResumeFault {
        ResumeFault::File(f)
    }
}
