ghost use Rattle.exact.specs.Residues.{totals};
ghost use Rattle.exact.specs.Sweeps.{row_total};
ghost use Rattle.exact.proofs.Totals.{totals_laws};

use crate::group::Group;
use crate::rows::{Coefficients, Row};

// A total of sweeps, modulo 2^64 in each of its D coefficients.
#[derive(Debug, Clone, Copy, PartialEq, Eq)]
pub struct Sweep<const D: usize> {
    pub row: Row<D>,
}

impl<const D: usize> Group for Sweep<D> {
    ghost group = { totals };

    ghost worth = { λ s. row_total s.row.at };

    ghost lawful = { totals_laws };

    fn zero() -> Sweep<D> {
        Sweep { row: Row::zero() }
    }

    fn sum(self, other: Sweep<D>) -> Sweep<D> {
        Sweep {
            row: self.row.plus(other.row),
        }
    }

    fn opposite(self) -> Sweep<D> {
        Sweep {
            row: Row::zero().minus(self.row),
        }
    }
}
