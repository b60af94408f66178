// How often, modulo 2^64.
ghost use Rattle.exact.specs.Residues.{residue};
ghost use Rattle.meters.specs.Counts.{residues};
ghost use Rattle.meters.specs.CountLaws.{residues_laws};

use rings::group::Group;

// A whole number modulo 2^64, read as signed.
#[derive(Debug, Clone, Copy, PartialEq, Eq)]
pub struct Count {
    pub at: i64,
}

impl Group for Count {
    ghost group = { residues };

    ghost worth = { λ c. residue c.at };

    ghost lawful = { residues_laws };

    fn zero() -> Count {
        Count { at: 0 }
    }

    fn sum(self, other: Count) -> Count {
        Count {
            at: self.at.wrapping_add(other.at),
        }
    }

    fn opposite(self) -> Count {
        Count {
            at: self.at.wrapping_neg(),
        }
    }
}
