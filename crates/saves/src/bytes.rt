// The bytes of a save, from the numbers that they stand for.
ghost use Rattle.std.specs.Prelude.{◌≡◌, ◌+◌, ◌/◌, ◌%◌, ◌≤◌, ◌==◌, if◌then◌else◌, pos, slice_index_or};
ghost use Rattle.rings.specs.Plane.{OnPlane};
ghost use Rattle.jobs.specs.Limits.{most_depth};
ghost use Rattle.files.specs.Files.{coefficient_bytes, aside_mark, mirror_mark};

use rings::ring::Ring;

// Added to a record's descents where the node is set aside.
const ASIDE_MARK: u8 = 16;

// Added to a record's descents where the piece is laid mirrored.
const MIRROR_MARK: u8 = 32;

// The only byte of a node set aside.
pub(crate) fn aside_byte(descents: u8) -> u8
    requires { descents ≤ most_depth }
    ensures { result ≡ descents + aside_mark }
{
    descents + ASIDE_MARK
}

// The first byte of a laid piece.
pub(crate) fn laid_byte(descents: u8, mirrored: bool) -> u8
    requires { descents ≤ most_depth }
    ensures { result ≡ descents + (if mirrored then mirror_mark else 0) }
{
    if mirrored {
        descents + MIRROR_MARK
    } else {
        descents
    }
}

// A turn, which counts modulo n.
pub(crate) fn turn_byte<R: Ring>(turn: u32) -> u8
    ensures { result ≡ turn % R.exact.n }
{
    (turn % R::N) as u8
}

// Coefficient k of a place in four bytes, high byte first, in two's complement.
pub(crate) fn coefficient_bytes<R: Ring>(place: R::Plain, k: usize) -> [u8; 4]
    requires { OnPlane R.exact (R.exact.of (R.listed place)) }
    ensures { result ≡ coefficient_bytes (slice_index_or (R.exact.list (R.exact.of (R.listed place))) k (pos 0)) }
{
    (R::plain_coefficient(place, k) as i32).to_be_bytes()
}

// The descents that a record's first byte tells.
pub(crate) fn descents_in(first: u8) -> u8
    ensures { result ≡ first % 16 }
{
    first % ASIDE_MARK
}

// Whether a record's first byte tells of a node set aside.
pub(crate) fn is_aside(first: u8) -> bool
    ensures { result ≡ ((first / 16) == 1) }
{
    first / ASIDE_MARK == 1
}
