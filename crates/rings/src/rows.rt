ghost use Rattle.std.specs.Prelude.{◌≡◌, T, ℕ, ◌<◌, List, ℤ, pos, ◌+ℤ◌, ◌-ℤ◌, length, slice_index_or};
ghost use Rattle.std.specs.Int.{int_wrap, w64};
ghost use Rattle.exact.specs.Sizes.{Within};
ghost use Rattle.rings.specs.Plane.{plane_bound, fitted_from};

use crate::plane::{is_between, listed_or_zero};
use std::array::from_fn;

// Rows of whole numbers with no bound, all of one length: what a ring's values are made of and shown as.
pub trait Coefficients: Copy {
    // the length
    ghost D: { ℕ };

    ghost at: { Self → List ℤ };

    fn zero() -> Self
        ensures { (k : ℕ) → slice_index_or (at result) k (pos 0) ≡ pos 0 };

    // What a list lacks is 0; what it has beyond D numbers is passed over.
    fn read(list: &[i64]) -> Self
        ensures { at result ≡ fitted_from 0 D list.now };

    // Number k, 0 from D on.
    fn number(self, k: usize) -> i64
        ensures { result ≡ slice_index_or (at self) k (pos 0) };

    // Whether all numbers are at most `size` in size.
    fn is_within(self, size: u32) -> bool
        ensures yes { T result → Within size (at self) }
        ensures no { Within size (at self) → T result };

    // The sums, modulo 2^64 and read as signed. Of rows of positions they are the sums themselves.
    fn plus(self, other: Self) -> Self
        ensures is { (k : ℕ) → slice_index_or (at result) k (pos 0) ≡ int_wrap w64 (slice_index_or (at self) k (pos 0) +ℤ slice_index_or (at other) k (pos 0)) }
        ensures exact { Within plane_bound (at self) → Within plane_bound (at other) →
            (k : ℕ) → slice_index_or (at result) k (pos 0) ≡ slice_index_or (at self) k (pos 0) +ℤ slice_index_or (at other) k (pos 0) };

    // The differences, in the same way. (A twin of `plus` but for the operator: a function over both would be told which by a closure,
    // and owe the same two clauses of it.)
    fn minus(self, other: Self) -> Self
        ensures is { (k : ℕ) → slice_index_or (at result) k (pos 0) ≡ int_wrap w64 (slice_index_or (at self) k (pos 0) -ℤ slice_index_or (at other) k (pos 0)) }
        ensures exact { Within plane_bound (at self) → Within plane_bound (at other) →
            (k : ℕ) → slice_index_or (at result) k (pos 0) ≡ slice_index_or (at self) k (pos 0) -ℤ slice_index_or (at other) k (pos 0) };
}

// A row of D numbers.
#[derive(Debug, Clone, Copy, PartialEq, Eq)]
pub struct Row<const D: usize> {
    pub at: [i64; D],
    ghost full: { length at ≡ D },
}

impl<const D: usize> Coefficients for Row<D> {
    ghost D = { D };

    ghost at = { λ p. p.at };

    fn zero() -> Row<D> {
        Row { at: [0; D] }
    }

    fn read(list: &[i64]) -> Row<D> {
        Row {
            at: from_fn(
                |k| -> i64
                    ensures { result ≡ slice_index_or list.entry.now k (pos 0) }
                { listed_or_zero(list, k) },
            ),
        }
    }

    fn number(self, k: usize) -> i64 {
        let at = self.at;
        listed_or_zero(&at, k)
    }

    fn is_within(self, size: u32) -> bool {
        let at = self.at;
        at.iter().all(|c| is_between(*c, size))
    }

    fn plus(self, other: Row<D>) -> Row<D> {
        let (left, right) = (self.at, other.at);
        Row {
            at: from_fn(
                |k| -> i64
                    requires { (length left ≡ D) × (length right ≡ D) × (k < D) }
                    ensures { result ≡ int_wrap w64 (slice_index_or left k (pos 0) +ℤ slice_index_or right k (pos 0)) }
                { left[k].wrapping_add(right[k]) },
            ),
        }
    }

    fn minus(self, other: Row<D>) -> Row<D> {
        let (left, right) = (self.at, other.at);
        Row {
            at: from_fn(
                |k| -> i64
                    requires { (length left ≡ D) × (length right ≡ D) × (k < D) }
                    ensures { result ≡ int_wrap w64 (slice_index_or left k (pos 0) -ℤ slice_index_or right k (pos 0)) }
                { left[k].wrapping_sub(right[k]) },
            ),
        }
    }
}
