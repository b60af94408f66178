// Z[ζ10] on the plane.
#![tactic(auto)]

ghost use Rattle.std.specs.Prelude.{◌≡◌, refl, ◌*◌, ◌<◌, slice_index_or, pos, ◌+ℤ◌, ◌-ℤ◌, ◌*ℤ◌, ◌≤ℤ◌};
ghost use Rattle.std.proofs.Common.{◌∙◌};
ghost use Rattle.exact.specs.Signs.{surd_sign};
ghost use Rattle.exact.specs.Sizes.{Between, Within};
ghost use Rattle.exact.specs.Sweeps.{row_total};
ghost use Rattle.exact.specs.Models.{tenfold, quad_list};
ghost use Rattle.rings.specs.Plane.{plane_bound, height_bound, products};
ghost use Rattle.exact.proofs.TenfoldLaws.{tenfold_laws};
ghost use Rattle.exact.proofs.Sizes.{tenfold_sizes};
ghost use Rattle.rings.proofs.Bounds.{sweeps_are_small};
ghost use Rattle.rings.proofs.Lists.{within_prop};
ghost use Rattle.rings.proofs.Kept.{row_same, row_ended, row_kept, rows_decide};

use rings::fault::RingFault;
use rings::plane::{HEIGHT_BOUND, PLANE_BOUND, sign_of, times};
use rings::ring::Ring;
use rings::rows::{Coefficients, Row};
use rings::sizes::SmallRing;
use rings::sweeps::Sweep;

// c0 + c1ζ + c2ζ² + c3ζ³, with the plane's bound in its type.
#[derive(Debug, Clone, Copy, PartialEq)]
pub struct Tenfold {
    row: Row<4>,
    ghost near: { Within plane_bound row.at } by { within_prop plane_bound row.at },
}

// The position with these coefficients, which are on the plane.
fn small(at: [i64; 4]) -> Tenfold
    requires { Within plane_bound at }
    ensures { result.row.at ≡ at }
{
    Tenfold { row: Row { at } }
}

// The coefficient of ζ⁴ in the product, before it is reduced by ζ⁴ = ζ³ - ζ² + ζ - 1.
fn fourth(x: Tenfold, y: Tenfold) -> i64
    ensures is { let p = tenfold.of x.row.at in let q = tenfold.of y.row.at in result ≡ p.c1 *ℤ q.c3 +ℤ p.c2 *ℤ q.c2 +ℤ p.c3 *ℤ q.c1 }
    ensures small { Between (products 3) result }
{
    let (x, y) = (x.row.at, y.row.at);
    times(x[1], y[3]) + times(x[2], y[2]) + times(x[3], y[1])
}

// The product's coefficient of 1, but for ζ⁴; ζ⁵ = -1.
fn row0(x: Tenfold, y: Tenfold) -> i64
    ensures is { let p = tenfold.of x.row.at in let q = tenfold.of y.row.at in result ≡ p.c0 *ℤ q.c0 -ℤ (p.c2 *ℤ q.c3 +ℤ p.c3 *ℤ q.c2) }
    ensures small { Between (products 3) result }
{
    let (x, y) = (x.row.at, y.row.at);
    times(x[0], y[0]) - times(x[2], y[3]) - times(x[3], y[2])
}

// Of ζ, but for ζ⁴; ζ⁶ = -ζ.
fn row1(x: Tenfold, y: Tenfold) -> i64
    ensures is { let p = tenfold.of x.row.at in let q = tenfold.of y.row.at in result ≡ p.c0 *ℤ q.c1 +ℤ p.c1 *ℤ q.c0 -ℤ p.c3 *ℤ q.c3 }
    ensures small { Between (products 3) result }
{
    let (x, y) = (x.row.at, y.row.at);
    times(x[0], y[1]) + times(x[1], y[0]) - times(x[3], y[3])
}

// Of ζ², but for ζ⁴.
fn row2(x: Tenfold, y: Tenfold) -> i64
    ensures is { let p = tenfold.of x.row.at in let q = tenfold.of y.row.at in result ≡ p.c0 *ℤ q.c2 +ℤ p.c1 *ℤ q.c1 +ℤ p.c2 *ℤ q.c0 }
    ensures small { Between (products 3) result }
{
    let (x, y) = (x.row.at, y.row.at);
    times(x[0], y[2]) + times(x[1], y[1]) + times(x[2], y[0])
}

// Of ζ³, but for ζ⁴.
fn row3(x: Tenfold, y: Tenfold) -> i64
    ensures is { let p = tenfold.of x.row.at in let q = tenfold.of y.row.at in result ≡ p.c0 *ℤ q.c3 +ℤ p.c3 *ℤ q.c0 +ℤ (p.c1 *ℤ q.c2 +ℤ p.c2 *ℤ q.c1) }
    ensures small { Between (products 4) result }
{
    let (x, y) = (x.row.at, y.row.at);
    let outer = times(x[0], y[3]) + times(x[3], y[0]);
    let inner = times(x[1], y[2]) + times(x[2], y[1]);
    outer + inner
}

// The cross product of coefficients i and j.
fn cross(x: Tenfold, y: Tenfold, i: usize, j: usize) -> i64
    requires { (i < 4) × (j < 4) }
    ensures is { result ≡ slice_index_or x.row.at i (pos 0) *ℤ slice_index_or y.row.at j (pos 0) -ℤ slice_index_or x.row.at j (pos 0) *ℤ slice_index_or y.row.at i (pos 0) }
    ensures small { Between (products 2) result }
{
    let (x, y) = (x.row.at, y.row.at);
    times(x[i], y[j]) - times(x[j], y[i])
}

// The cross products of neighbouring coefficients. (Two formulas, this and the next, each with its three pairs: one function over
// pairs of numbers would have to say which of them it may be asked for.)
fn near_cross(x: Tenfold, y: Tenfold) -> i64
    ensures is { let p = tenfold.of x.row.at in let q = tenfold.of y.row.at in result ≡ (p.c0 *ℤ q.c1 -ℤ p.c1 *ℤ q.c0) +ℤ (p.c1 *ℤ q.c2 -ℤ p.c2 *ℤ q.c1) +ℤ (p.c2 *ℤ q.c3 -ℤ p.c3 *ℤ q.c2) }
    ensures small { Between (products 6) result }
{
    cross(x, y, 0, 1) + cross(x, y, 1, 2) + cross(x, y, 2, 3)
}

// The cross products of coefficients farther apart.
fn far_cross(x: Tenfold, y: Tenfold) -> i64
    ensures is { let p = tenfold.of x.row.at in let q = tenfold.of y.row.at in result ≡ (p.c0 *ℤ q.c2 -ℤ p.c2 *ℤ q.c0) +ℤ (p.c1 *ℤ q.c3 -ℤ p.c3 *ℤ q.c1) +ℤ (p.c0 *ℤ q.c3 -ℤ p.c3 *ℤ q.c0) }
    ensures small { Between (products 6) result }
{
    cross(x, y, 0, 2) + cross(x, y, 1, 3) + cross(x, y, 0, 3)
}

fn squared(u: i64) -> i64
    requires { Between (4 * height_bound) u }
    ensures is { result ≡ u *ℤ u }
    ensures low { pos 0 ≤ℤ result }
    ensures high { result ≤ℤ pos (16 * (height_bound * height_bound)) }
    ensures half { Between (2 * height_bound) u → result ≤ℤ pos (4 * (height_bound * height_bound)) }
{
    u * u
}

// The sign of u + b√5.
fn surd(u: i64, b: i64) -> i8
    requires { (Between (4 * height_bound) u) × (Between (2 * height_bound) b) }
    ensures { result ≡ surd_sign 5 u b }
{
    if 5 * squared(b) < squared(u) {
        sign_of(u)
    } else {
        sign_of(b)
    }
}

// The height: the sign of c1 + (c2 + c3)φ.
fn golden(row: Row<4>) -> i8
    requires { Within height_bound row.at }
    ensures { result ≡ tenfold.height (tenfold.of row.at) }
{
    let [_, a, c, d] = row.at;
    let b = c + d;
    surd(a + a + b, b)
}

// `from_plain`, `plain`, `zero` and `swept` stand here, not in the trait: an element, whose type
// carries the bound, is made and opened only in its own module.
impl Ring for Tenfold {
    const N: u32 = 10;

    const D: usize = 4;

    ghost N = { 10 };

    ghost D = { 4 };

    type Plain = Row<4>;

    type Sweep = Sweep<4>;

    ghost exact = { tenfold };

    ghost value = { λ z. tenfold.of z.row.at };

    ghost listed = { λ p. p.at };

    ghost row = { λ x. record { at = quad_list x; full = refl } };

    ghost total = { λ s. row_total s.row.at };

    ghost lawful = { tenfold_laws };

    ghost counts_turns = { refl };

    ghost counts_coefficients = { refl };

    ghost bounded = { λ z. row_kept tenfold tenfold_laws z.row z.near };

    ghost decided = { λ a b t e. e ∙ rows_decide tenfold tenfold_laws a.row b.row };

    ghost listed_row = { λ x. refl };

    ghost row_listed = { λ p. row_same _ p (tenfold_laws.list_of p.at p.full) };

    ghost plain_length = { refl };

    ghost plain_listed = { λ p. refl };

    ghost tied = { record { zero = λ s e. e; sum = λ s t u e. e; opposite = λ s t e. e } };

    ghost total_ends = { λ s k h. row_ended s.row k h };

    ghost sweeps_small = { λ p q. sweeps_are_small tenfold tenfold_sizes (tenfold.of p.row.at) (tenfold.of q.row.at) (row_kept tenfold tenfold_laws p.row p.near) (row_kept tenfold tenfold_laws q.row q.near) };

    fn from_plain(plain: Row<4>) -> Result<Tenfold, RingFault> {
        if plain.is_within(PLANE_BOUND) {
            Ok(Tenfold { row: plain })
        } else {
            Err(RingFault::OffPlane)
        }
    }

    fn plain(self) -> Row<4> {
        self.row
    }

    fn zero() -> Tenfold {
        Tenfold {
            row: Row { at: [0, 0, 0, 0] },
        }
    }

    fn unit(k: u32) -> Tenfold {
        match k % 10 {
            0 => small([1, 0, 0, 0]),
            1 => small([0, 1, 0, 0]),
            2 => small([0, 0, 1, 0]),
            3 => small([0, 0, 0, 1]),
            4 => small([-1, 1, -1, 1]),
            5 => small([-1, 0, 0, 0]),
            6 => small([0, -1, 0, 0]),
            7 => small([0, 0, -1, 0]),
            8 => small([0, 0, 0, -1]),
            _ => small([1, -1, 1, -1]),
        }
    }

    fn mul(self, other: Tenfold) -> Result<Tenfold, RingFault> {
        let fold = fourth(self, other);
        Self::from_plain(Row {
            at: [
                row0(self, other) - fold,
                row1(self, other) + fold,
                row2(self, other) - fold,
                row3(self, other) + fold,
            ],
        })
    }

    fn conj(self) -> Result<Tenfold, RingFault> {
        // ζ⁻¹ = 1 - ζ + ζ² - ζ³, ζ⁻² = -ζ³ and ζ⁻³ = -ζ².
        let [a, b, c, d] = self.row.at;
        Self::from_plain(Row {
            at: [a + b, -b, b - d, -b - c],
        })
    }

    fn height_of(plain: Row<4>) -> Result<i8, RingFault> {
        if plain.is_within(HEIGHT_BOUND) {
            Ok(golden(plain))
        } else {
            Err(RingFault::OffPlane)
        }
    }

    fn sweep(self, to: Tenfold) -> Sweep<4> {
        // ζ - ζ⁻¹ is (-1, 2, -1, 1), and ζ² - ζ⁻² and ζ³ - ζ⁻³ are both (0, 0, 1, 1).
        let a = near_cross(self, to);
        let b = far_cross(self, to);
        Sweep {
            row: Row {
                at: [-a, a + a, b - a, b + a],
            },
        }
    }

    fn swept(s: Sweep<4>) -> Row<4> {
        s.row
    }
}

impl SmallRing for Tenfold {
    ghost small = { tenfold_sizes };
}
