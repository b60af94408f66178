// Why a book is refused.
ghost use Rattle.std.specs.Prelude.{◌≡◌};
ghost use Rattle.book.specs.Faults.{book_refusal, passed_on};
ghost use Rattle.book.specs.declared.fault.BookFault.TheVariants.{Ring};

use edges::fault::ChainFault;
use edges::rows::Edge;
use refusals::{Fault, Layer};
use rings::fault::RingFault;

// An edge in canonical form, and how much more one chain counts it than another.
#[derive(Debug, Clone, Copy, PartialEq)]
pub struct Difference<R> {
    pub edge: Edge<R>,
    pub amount: i64,
}

// The first fault of a book, with what shows it.
#[derive(Debug, Clone, Copy, PartialEq)]
pub enum BookFault<R> {
    // The factor is not real or not above 1. It carries the number of labels.
    Factor(usize),
    // A label's length is not real or not above 0.
    Length(usize),
    // A label's subdivision does not fill its stretched length, or, of a plain label, reads otherwise from its other end.
    Subdivision(usize),
    // A tile's outline does not end where it began, or its area is not positive.
    Outline(usize),
    // A tile, and the first edge that its children and its inflated outline count differently: the children's count less the outline's.
    Unbalanced(usize, Difference<R>),
    // The ring's refusal, whole.
    Ring(RingFault),
    Memory,
}

impl<R> Fault for BookFault<R> {
    ghost refusal = { book_refusal };

    fn number(&self) -> Option<u8> {
        match self {
            BookFault::Factor(_) | BookFault::Length(_) => Some(4),
            BookFault::Subdivision(_) => Some(5),
            BookFault::Outline(_) => Some(6),
            BookFault::Unbalanced(_, _) => Some(7),
            BookFault::Ring(f) => f.number(),
            BookFault::Memory => None,
        }
    }

    fn place(&self) -> usize {
        match self {
            BookFault::Factor(count) => *count,
            BookFault::Length(label) | BookFault::Subdivision(label) => *label,
            BookFault::Outline(tile) | BookFault::Unbalanced(tile, _) => *tile,
            BookFault::Ring(f) => f.place(),
            BookFault::Memory => 0,
        }
    }

    fn layer(&self) -> Layer {
        match self {
            BookFault::Ring(f) => f.layer(),
            _ => Layer::Book,
        }
    }
}

impl<R> From<RingFault> for BookFault<R> {
    ghost from_gives = { λ f r. r ≡ Ring f };

    fn from(f: RingFault) -> BookFault<R> {
        BookFault::Ring(f)
    }
}

impl<R> From<ChainFault> for BookFault<R> {
    ghost from_gives = { λ f r. r ≡ passed_on f };

    fn from(f: ChainFault) -> BookFault<R> {
        match f {
            ChainFault::Ring(f) => BookFault::Ring(f),
            ChainFault::Memory => BookFault::Memory,
        }
    }
}
