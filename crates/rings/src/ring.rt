ghost use Rattle.std.specs.Prelude.{◌≡◌, ℕ, ◌≤◌, Bool, List, ℤ, pos, slice_index_or};
ghost use Rattle.exact.specs.Cyclotomic.{Cyclotomic, CyclotomicLaws, power, same_element};
ghost use Rattle.exact.specs.Residues.{Residue, Total, residue};
ghost use Rattle.exact.specs.Sizes.{Within};
ghost use Rattle.exact.specs.Sweeps.{sweep, total_of, coefficients_from, read_total};
ghost use Rattle.rings.specs.Plane.{OnPlane, read_list, sweep_bound};
ghost use Rattle.rings.specs.Answers.{Exactly, HeightOf};
ghost use Rattle.rings.specs.Tied.{TiedToTotals};

use crate::fault::RingFault;
use crate::group::Group;
use crate::rows::Coefficients;

// A ring of cyclotomic integers: positions, whose coefficients stay on the plane.
// An operation answers the exact result, or 'off the plane' exactly where a coefficient of that result lies outside;
// what leaves the plane on the way refuses nothing.
pub trait Ring: Copy + PartialEq {
    // The ring's n and d.
    const N: u32;

    const D: usize;

    // the same, as a clause names them
    ghost N: { ℕ };

    ghost D: { ℕ };

    // d coefficients with no bound
    type Plain: Coefficients;

    type Sweep: Group;

    // the exact ring, and the element that a position stands for
    ghost exact: { Cyclotomic };

    ghost value: { Self → exact.Elem };

    // a plain row's coefficients; rows and elements determine each other
    ghost listed: { Self.Plain → List ℤ };

    ghost row: { exact.Elem → Self.Plain };

    // a sweep's coefficients, modulo 2^64; there are d of them
    ghost total: { Self.Sweep → Total };

    // Turned by k n-ths of a circle.
    fn turn(self, k: u32) -> Result<Self, RingFault>
        ensures { Exactly exact value result (exact.mul (power exact k) (value self)) }
    {
        Self::unit(k).mul(self)
    }

    // The position with the listed coefficients. What a list lacks is 0; what it has beyond d is passed over.
    fn make(list: &[i64]) -> Result<Self, RingFault>
        ensures { Exactly exact value result (read_list exact list.now) }
    {
        Self::from_plain(Self::Plain::read(list))
    }

    fn from_plain(plain: Self::Plain) -> Result<Self, RingFault>
        ensures { Exactly exact value result (exact.of (listed plain)) };

    fn plain(self) -> Self::Plain
        ensures { result ≡ row (value self) };

    // Coefficient k, 0 from d on.
    fn coefficient(self, k: usize) -> i64
        ensures { result ≡ slice_index_or (exact.list (value self)) k (pos 0) }
    {
        Self::plain_coefficient(self.plain(), k)
    }

    fn plain_coefficient(plain: Self::Plain, k: usize) -> i64
        ensures { result ≡ slice_index_or (listed plain) k (pos 0) }
    {
        plain.number(k)
    }

    fn zero() -> Self
        ensures { value result ≡ exact.zero };

    // ζ^k
    fn unit(k: u32) -> Self
        ensures { value result ≡ power exact k };

    fn add(self, other: Self) -> Result<Self, RingFault>
        ensures { Exactly exact value result (exact.add (value self) (value other)) }
    {
        Self::from_plain(self.plain().plus(other.plain()))
    }

    fn sub(self, other: Self) -> Result<Self, RingFault>
        ensures { Exactly exact value result (exact.add (value self) (exact.neg (value other))) }
    {
        Self::from_plain(self.plain().minus(other.plain()))
    }

    fn mul(self, other: Self) -> Result<Self, RingFault>
        ensures { Exactly exact value result (exact.mul (value self) (value other)) };

    fn conj(self) -> Result<Self, RingFault>
        ensures { Exactly exact value result (exact.conj (value self)) };

    // 1 above the real axis, 0 on it, -1 below: a number and no enum, since the laws of a ring turn its sign.
    fn height(self) -> Result<i8, RingFault>
        ensures { HeightOf exact result (value self) }
    {
        Self::height_of(self.plain())
    }

    // The height of any d coefficients.
    fn height_of(plain: Self::Plain) -> Result<i8, RingFault>
        ensures { HeightOf exact result (exact.of (listed plain)) };

    // What the segment to `to` sweeps over, as seen from 0.
    fn sweep(self, to: Self) -> Self::Sweep
        ensures { total result ≡ total_of exact (sweep exact (value self) (value to)) };

    // Coefficient k of a sweep, read as signed, 0 from d on.
    fn sweep_coefficient(s: Self::Sweep, k: usize) -> i64
        ensures { result ≡ (total s k).at }
    {
        Self::swept(s).number(k)
    }

    fn sweep_height(s: Self::Sweep) -> Result<i8, RingFault>
        ensures { HeightOf exact result (read_total exact (total s)) }
    {
        Self::height_of(Self::swept(s))
    }

    // The sweep's coefficients, read as signed.
    fn swept(s: Self::Sweep) -> Self::Plain
        ensures { listed result ≡ coefficients_from 0 exact.d (total s) };

    ghost lawful: { CyclotomicLaws exact };

    ghost counts_turns: { N ≡ exact.n };

    ghost counts_coefficients: { D ≡ exact.d };

    ghost bounded: { (z : Self) → OnPlane exact (value z) };

    // `==` decides whether two positions stand for the same element
    ghost decided: { (a b : Self) (t : Bool) → (t ≡ Self.PartialEq.eq a b) → t ≡ same_element exact (value a) (value b) };

    ghost listed_row: { (x : exact.Elem) → listed (row x) ≡ exact.list x };

    ghost row_listed: { (p : Self.Plain) → row (exact.of (listed p)) ≡ p };

    // plain rows are of d coefficients, and are listed as rows are
    ghost plain_length: { Self.Plain.Coefficients.D ≡ exact.d };

    ghost plain_listed: { (p : Self.Plain) → listed p ≡ Self.Plain.Coefficients.at p };

    ghost tied: { TiedToTotals Self.Sweep.Group.group Self.Sweep.Group.worth total };

    ghost total_ends: { (s : Self.Sweep) (k : ℕ) → exact.d ≤ k → total s k ≡ residue (pos 0) };

    // a sweep between positions is small: its coefficients are the exact ones, and so are those of a dozen added up
    ghost sweeps_small: { (p q : Self) → Within sweep_bound (exact.list (sweep exact (value p) (value q))) };
}
