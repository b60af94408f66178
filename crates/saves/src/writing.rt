// Bytes and rows, written into a buffer.
ghost use Rattle.std.specs.Prelude.{◌≡◌, ◌+◌, ◌*◌, ◌≤◌, length, map};
ghost use Rattle.std.specs.List.{AllByRecursion, flat_map};
ghost use Rattle.rings.specs.Plane.{OnPlane};
ghost use Rattle.calls.specs.Records.{row_view};
ghost use Rattle.files.specs.Files.{place_bytes, record_bytes};
ghost use Rattle.saves.specs.Written.{with_bytes, Writable};

use crate::bytes::{aside_byte, coefficient_bytes, laid_byte, turn_byte};
use calls::row::Row;
use rings::ring::Ring;

// Writes bytes from a place on, and answers the place behind them.
pub(crate) fn put(buffer: &mut [u8], at: usize, bytes: &[u8]) -> usize
    requires { at + length bytes.now ≤ length buffer.old }
    ensures end { result ≡ at + length bytes.now }
    ensures written { buffer.new ≡ with_bytes buffer.old at bytes.now }
{
    let end = at + bytes.len();
    buffer[at..end].copy_from_slice(bytes);
    end
}

// A place: its coefficients, one after the other.
fn put_place<R: Ring>(buffer: &mut [u8], at: usize, place: R::Plain) -> usize
    requires room { at + 4 * R.exact.d ≤ length buffer.old }
    requires plane { OnPlane R.exact (R.exact.of (R.listed place)) }
    ensures end { result ≡ at + length (place_bytes R.exact (R.exact.of (R.listed place))) }
    ensures written { buffer.new ≡ with_bytes buffer.old at (place_bytes R.exact (R.exact.of (R.listed place))) }
{
    let mut at = at;
    for k in 0..R::D {
        at = put(buffer, at, &coefficient_bytes::<R>(place, k));
    }
    at
}

// A row: the byte of a node set aside or, of a laid piece, its first byte, its turn and its place.
fn put_row<R: Ring>(buffer: &mut [u8], at: usize, row: &Row<R::Plain>) -> usize
    requires room { at + length (record_bytes R.exact (row_view R.exact R.listed row.now)) ≤ length buffer.old }
    requires writable { Writable R.exact (row_view R.exact R.listed row.now) }
    ensures end { result ≡ at + length (record_bytes R.exact (row_view R.exact R.listed row.now)) }
    ensures written { buffer.new ≡ with_bytes buffer.old at (record_bytes R.exact (row_view R.exact R.listed row.now)) }
{
    match &row.laid {
        None => put(buffer, at, &[aside_byte(row.descents)]),
        Some(piece) => {
            let head = [
                laid_byte(row.descents, piece.mirrored),
                turn_byte::<R>(piece.turn),
            ];
            let at = put(buffer, at, &head);
            put_place::<R>(buffer, at, piece.place)
        }
    }
}

// Rows, one after the other.
pub(crate) fn put_rows<R: Ring>(buffer: &mut [u8], at: usize, rows: &[Row<R::Plain>]) -> usize
    requires room { at + length (flat_map (record_bytes R.exact) (map (row_view R.exact R.listed) rows.now)) ≤ length buffer.old }
    requires writable { AllByRecursion (Writable R.exact) (map (row_view R.exact R.listed) rows.now) }
    ensures end { result ≡ at + length (flat_map (record_bytes R.exact) (map (row_view R.exact R.listed) rows.now)) }
    ensures written { buffer.new ≡ with_bytes buffer.old at (flat_map (record_bytes R.exact) (map (row_view R.exact R.listed) rows.now)) }
{
    let mut at = at;
    for row in rows {
        at = put_row::<R>(buffer, at, row);
    }
    at
}
