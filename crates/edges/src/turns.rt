// Directions and turns, in n-ths of a circle.
ghost use Rattle.std.specs.Prelude.{◌≡◌, ℕ, ◌+◌, ◌%◌, ◌<◌, ◌≤◌};
ghost use Rattle.exact.specs.Cyclotomic.{half};
ghost use Rattle.chains.specs.Edges.{plus_turn, minus_turn};

use rings::ring::Ring;

// A direction without its whole turns.
pub(crate) fn reduced<R: Ring>(j: u32) -> u32
    ensures is { result ≡ j % R.exact.n }
    ensures low { result < R.exact.n }
{
    j % R::N
}

// Half a turn.
pub(crate) fn half_turn<R: Ring>() -> u32
    ensures is { result ≡ half R.exact }
    ensures small { result ≤ 128 }
{
    R::N / 2
}

// The direction k + j.
pub(crate) fn sum_of_turns<R: Ring>(k: u32, j: u32) -> u32
    ensures { result ≡ plus_turn R.exact k j }
{
    reduced::<R>(reduced::<R>(k) + reduced::<R>(j))
}

// The direction k - j.
pub(crate) fn difference_of_turns<R: Ring>(k: u32, j: u32) -> u32
    ensures { result ≡ minus_turn R.exact k j }
{
    reduced::<R>(reduced::<R>(k) + (R::N - reduced::<R>(j)))
}

// The opposite direction, j + n/2.
pub(crate) fn opposed<R: Ring>(j: u32) -> u32
    ensures { result ≡ (j + half R.exact) % R.exact.n }
{
    reduced::<R>(reduced::<R>(j) + half_turn::<R>())
}
