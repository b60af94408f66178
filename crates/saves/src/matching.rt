// What follows a row's bytes, where other bytes begin with them.
ghost use Rattle.std.specs.Prelude.{◌≢◌, ◌≡◌, ℕ, List, ◌++◌, MatchOption};
ghost use Rattle.rings.specs.Plane.{OnPlane};
ghost use Rattle.calls.specs.Records.{row_view};
ghost use Rattle.files.specs.Files.{place_bytes, record_bytes};
ghost use Rattle.saves.specs.Written.{Writable};

use crate::bytes::{aside_byte, coefficient_bytes, laid_byte, turn_byte};
use calls::row::Row;
use rings::ring::Ring;

// What follows a place's bytes.
fn after_place<R: Ring>(bytes: &[u8], place: R::Plain) -> Option<&[u8]>
    requires { OnPlane R.exact (R.exact.of (R.listed place)) }
    ensures { let p = place_bytes R.exact (R.exact.of (R.listed place)) in MatchOption result ((rest : List ℕ) → bytes.now ≢ p ++ rest) (λ rest. bytes.now ≡ p ++ rest.now) }
{
    let mut rest = bytes;
    for k in 0..R::D {
        rest = rest.strip_prefix(&coefficient_bytes::<R>(place, k))?;
    }
    Some(rest)
}

// What follows a row's bytes.
pub(crate) fn after_row<'a, R: Ring>(bytes: &'a [u8], row: &Row<R::Plain>) -> Option<&'a [u8]>
    requires { Writable R.exact (row_view R.exact R.listed row.now) }
    ensures { let p = record_bytes R.exact (row_view R.exact R.listed row.now) in MatchOption result ((rest : List ℕ) → bytes.now ≢ p ++ rest) (λ rest. bytes.now ≡ p ++ rest.now) }
{
    match &row.laid {
        None => bytes.strip_prefix(&[aside_byte(row.descents)]),
        Some(piece) => {
            let head = [
                laid_byte(row.descents, piece.mirrored),
                turn_byte::<R>(piece.turn),
            ];
            let rest = bytes.strip_prefix(&head)?;
            after_place::<R>(rest, piece.place)
        }
    }
}
