// Why a job is refused before anything is laid.
ghost use Rattle.std.specs.Prelude.{◌≡◌};
ghost use Rattle.book.specs.Faults.{passed_on};
ghost use Rattle.job_check.specs.Faults.{check_refusal};
ghost use Rattle.job_check.specs.declared.fault.CheckFault.TheVariants.{Book};

use book::fault::BookFault;
use edges::fault::ChainFault;
use refusals::{Fault, Layer};

#[derive(Debug, Clone, Copy, PartialEq)]
pub enum CheckFault<R> {
    // The ring's n or d is not the job's.
    WrongRing,
    // The book's fault, whole.
    Book(BookFault<R>),
}

impl<R> Fault for CheckFault<R> {
    ghost refusal = { check_refusal };

    fn number(&self) -> Option<u8> {
        match self {
            CheckFault::WrongRing => Some(13),
            CheckFault::Book(f) => f.number(),
        }
    }

    fn place(&self) -> usize {
        match self {
            CheckFault::WrongRing => 0,
            CheckFault::Book(f) => f.place(),
        }
    }

    fn layer(&self) -> Layer {
        match self {
            CheckFault::WrongRing => Layer::Sheet,
            CheckFault::Book(f) => f.layer(),
        }
    }
}

impl<R> From<BookFault<R>> for CheckFault<R> {
    ghost from_gives = { λ f r. r ≡ Book f };

    fn from(f: BookFault<R>) -> CheckFault<R> {
        CheckFault::Book(f)
    }
}

impl<R> From<ChainFault> for CheckFault<R> {
    ghost from_gives = { λ f r. r ≡ Book (passed_on f) };

    fn from(f: ChainFault) -> CheckFault<R> {
        CheckFault::Book(BookFault::from(f))
    }
}
