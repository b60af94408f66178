// Z[i] on the plane.
#![tactic(auto)]

ghost use Rattle.std.specs.Prelude.{refl};
ghost use Rattle.std.proofs.Common.{◌∙◌};
ghost use Rattle.exact.specs.Sweeps.{row_total};
ghost use Rattle.exact.specs.Models.{gaussian, pair_list};
ghost use Rattle.exact.specs.Sizes.{Within};
ghost use Rattle.rings.specs.Plane.{plane_bound};
ghost use Rattle.exact.proofs.GaussianLaws.{gaussian_laws};
ghost use Rattle.exact.proofs.Sizes.{gaussian_sizes};
ghost use Rattle.rings.proofs.Bounds.{sweeps_are_small};
ghost use Rattle.rings.proofs.Lists.{within_prop};
ghost use Rattle.rings.proofs.Kept.{row_same, row_ended, row_kept, rows_decide};

use rings::fault::RingFault;
use rings::plane::{HEIGHT_BOUND, PLANE_BOUND, sign_of, times};
use rings::ring::Ring;
use rings::rows::{Coefficients, Row};
use rings::sizes::SmallRing;
use rings::sweeps::Sweep;

// c0 + c1·i, with the plane's bound in its type.
#[derive(Debug, Clone, Copy, PartialEq)]
pub struct Gaussian {
    row: Row<2>,
    ghost near: { Within plane_bound row.at } by { within_prop plane_bound row.at },
}

// `from_plain`, `plain`, `zero` and `swept` stand here, not in the trait: an element, whose type
// carries the bound, is made and opened only in its own module.
impl Ring for Gaussian {
    const N: u32 = 4;

    const D: usize = 2;

    ghost N = { 4 };

    ghost D = { 2 };

    type Plain = Row<2>;

    type Sweep = Sweep<2>;

    ghost exact = { gaussian };

    ghost value = { λ z. gaussian.of z.row.at };

    ghost listed = { λ p. p.at };

    ghost row = { λ x. record { at = pair_list x; full = refl } };

    ghost total = { λ s. row_total s.row.at };

    ghost lawful = { gaussian_laws };

    ghost counts_turns = { refl };

    ghost counts_coefficients = { refl };

    ghost bounded = { λ z. row_kept gaussian gaussian_laws z.row z.near };

    ghost decided = { λ a b t e. e ∙ rows_decide gaussian gaussian_laws a.row b.row };

    ghost listed_row = { λ x. refl };

    ghost row_listed = { λ p. row_same _ p (gaussian_laws.list_of p.at p.full) };

    ghost plain_length = { refl };

    ghost plain_listed = { λ p. refl };

    ghost tied = { record { zero = λ s e. e; sum = λ s t u e. e; opposite = λ s t e. e } };

    ghost total_ends = { λ s k h. row_ended s.row k h };

    ghost sweeps_small = { λ p q. sweeps_are_small gaussian gaussian_sizes (gaussian.of p.row.at) (gaussian.of q.row.at) (row_kept gaussian gaussian_laws p.row p.near) (row_kept gaussian gaussian_laws q.row q.near) };

    fn from_plain(plain: Row<2>) -> Result<Gaussian, RingFault> {
        if plain.is_within(PLANE_BOUND) {
            Ok(Gaussian { row: plain })
        } else {
            Err(RingFault::OffPlane)
        }
    }

    fn plain(self) -> Row<2> {
        self.row
    }

    fn zero() -> Gaussian {
        Gaussian {
            row: Row { at: [0, 0] },
        }
    }

    fn unit(k: u32) -> Gaussian {
        match k % 4 {
            0 => Gaussian {
                row: Row { at: [1, 0] },
            },
            1 => Gaussian {
                row: Row { at: [0, 1] },
            },
            2 => Gaussian {
                row: Row { at: [-1, 0] },
            },
            _ => Gaussian {
                row: Row { at: [0, -1] },
            },
        }
    }

    fn mul(self, other: Gaussian) -> Result<Gaussian, RingFault> {
        let [a, b] = self.row.at;
        let [c, d] = other.row.at;
        Self::from_plain(Row {
            at: [times(a, c) - times(b, d), times(a, d) + times(b, c)],
        })
    }

    fn conj(self) -> Result<Gaussian, RingFault> {
        let [a, b] = self.row.at;
        Self::from_plain(Row { at: [a, -b] })
    }

    fn height_of(plain: Row<2>) -> Result<i8, RingFault> {
        if plain.is_within(HEIGHT_BOUND) {
            Ok(sign_of(plain.number(1)))
        } else {
            Err(RingFault::OffPlane)
        }
    }

    fn sweep(self, to: Gaussian) -> Sweep<2> {
        // conj(p)·q and p·conj(q) have the same real part and opposite imaginary parts.
        let [a, b] = self.row.at;
        let [c, d] = to.row.at;
        let cross = times(a, d) - times(b, c);
        Sweep {
            row: Row {
                at: [0, cross + cross],
            },
        }
    }

    fn swept(s: Sweep<2>) -> Row<2> {
        s.row
    }
}

impl SmallRing for Gaussian {
    ghost small = { gaussian_sizes };
}
