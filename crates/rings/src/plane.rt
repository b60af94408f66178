// Coefficients: their bounds, products and signs.
ghost use Rattle.std.specs.Prelude.{◌≡◌, T, pos, ◌*ℤ◌, slice_index_or};
ghost use Rattle.std.specs.Int.{int_wrap, w64};
ghost use Rattle.exact.specs.Signs.{sign};
ghost use Rattle.exact.specs.Sizes.{Between};
ghost use Rattle.rings.specs.Plane.{plane_bound, products};

// The largest size of a position's coefficient.
pub const PLANE_BOUND: u32 = 1048576;

// The largest size of a coefficient of which a height is taken.
pub const HEIGHT_BOUND: u32 = 536870912;

// Whether the coefficient is at most `size` in size.
pub fn is_between(c: i64, size: u32) -> bool
    ensures yes { T result → Between size c }
    ensures no { Between size c → T result }
{
    let size = i64::from(size);
    -size <= c && c <= size
}

// The sign: 1, 0 or -1, a number as a height is. (The cast is proved to lose nothing; `try_from` would answer a Result.)
pub fn sign_of(c: i64) -> i8
    ensures { result ≡ sign c }
{
    c.signum() as i8
}

// Number k of a list, 0 beyond its end.
pub fn listed_or_zero(list: &[i64], k: usize) -> i64
    ensures { result ≡ slice_index_or list.now k (pos 0) }
{
    list.get(k).copied().unwrap_or(0)
}

// The product of two coefficients, modulo 2^64 and read as signed. Of coefficients of positions it is the product itself.
pub fn times(a: i64, b: i64) -> i64
    ensures is { result ≡ int_wrap w64 (a *ℤ b) }
    ensures exact { Between plane_bound a → Between plane_bound b → result ≡ a *ℤ b }
    ensures small { Between plane_bound a → Between plane_bound b → Between (products 1) result }
{
    a.wrapping_mul(b)
}
