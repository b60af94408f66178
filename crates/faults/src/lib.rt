// The faults of a job's text, and of a buffer for it.
#![tactic(auto)]

ghost use Rattle.std.specs.Prelude.{◌≡◌};
ghost use Rattle.faults.specs.Told.{text_refusal, buffer_refusal};
ghost use Rattle.faults.specs.declared.TextFault.TheVariants.{Memory};

use refusals::{Fault, Layer};
use std::alloc::AllocError;

// Why a text is no job: three faults of a line, which is counted from 1, and a text that is too long. Want of memory is
// no fault of the text, and has no number.
#[derive(Debug, Clone, Copy, PartialEq, Eq)]
pub enum TextFault {
    Misspelt(usize),
    Misplaced(usize),
    Unfit(usize),
    Overlong,
    Memory,
}

impl Fault for TextFault {
    ghost refusal = { text_refusal };

    fn number(&self) -> Option<u8> {
        match self {
            TextFault::Misspelt(_) => Some(1),
            TextFault::Misplaced(_) => Some(2),
            TextFault::Unfit(_) | TextFault::Overlong => Some(3),
            TextFault::Memory => None,
        }
    }

    // The line, or 0 for the whole text.
    fn place(&self) -> usize {
        match self {
            TextFault::Misspelt(line) | TextFault::Misplaced(line) | TextFault::Unfit(line) =>
                *line,
            TextFault::Overlong => 0,
            TextFault::Memory => 0,
        }
    }

    fn layer(&self) -> Layer {
        Layer::Text
    }
}

impl From<AllocError> for TextFault {
    ghost from_gives = { λ _ r. r ≡ Memory };

    fn from(_refused: AllocError) -> TextFault {
        TextFault::Memory
    }
}

// The caller's buffer is too short for what is to be written.
#[derive(Debug, Clone, Copy, PartialEq, Eq)]
pub struct TooShort;

impl Fault for TooShort {
    ghost refusal = { buffer_refusal };

    fn number(&self) -> Option<u8> {
        Some(15)
    }

    fn place(&self) -> usize {
        0
    }

    fn layer(&self) -> Layer {
        Layer::Sheet
    }
}
