// Bytes put into a caller's buffer, one text behind the other. To put a text into an empty buffer is to measure it.
ghost use Rattle.std.specs.Prelude.{◌≡◌, ◌∷◌, map};
ghost use Rattle.std.specs.List.{flat_map};
ghost use Rattle.lines.specs.Spelling.{word};
ghost use Rattle.calls.specs.Records.{row_view, laid_view, piece_view};
ghost use Rattle.cutting.specs.Puts.{Puts};
ghost use Rattle.cutting.specs.Lines.{piece_text, laid_text, line, cutting_list};

use calls::row::Row;
use itoa::{Buffer, Integer};
use job_rows::Placed;
use rings::ring::Ring;

// Puts the bytes at a place of the buffer, if they fit, and answers the place behind them: None where that is beyond all numbers
// of the machine.
fn put(buffer: &mut [u8], at: usize, bytes: &[u8]) -> Option<usize>
    ensures { Puts buffer.old at bytes.now buffer.new result }
{
    let end = at.checked_add(bytes.len())?;
    if end <= buffer.len() {
        buffer[at..end].copy_from_slice(bytes);
    }
    Some(end)
}

fn put_number<I: Integer>(buffer: &mut [u8], at: usize, n: I) -> Option<usize>
    ensures { Puts buffer.old at (I.text n) buffer.new result }
{
    let mut digits = Buffer::new();
    put(buffer, at, digits.format(n).as_bytes())
}

// A number after its space.
fn put_word<I: Integer>(buffer: &mut [u8], at: usize, n: I) -> Option<usize>
    ensures { Puts buffer.old at (32 ∷ I.text n) buffer.new result }
{
    let at = put(buffer, at, b" ")?;
    put_number(buffer, at, n)
}

// A place's coefficients, each after its space.
fn put_place<R: Ring>(buffer: &mut [u8], at: usize, place: R::Plain) -> Option<usize>
    ensures { Puts buffer.old at (flat_map word (R.listed place)) buffer.new result }
{
    let mut end = at;
    for k in 0..R::D {
        end = put_word(buffer, end, R::plain_coefficient(place, k))?;
    }
    Some(end)
}

// A laid piece: tile, turn, mirror mark and place.
fn put_piece<R: Ring>(buffer: &mut [u8], at: usize, piece: &Placed<R::Plain>) -> Option<usize>
    ensures { Puts buffer.old at (piece_text R.exact (piece_view R.exact R.listed piece.now)) buffer.new result }
{
    let at = put_number(buffer, at, piece.tile)?;
    let at = put_word(buffer, at, piece.turn % R::N)?;
    let at = put_word(buffer, at, u8::from(piece.mirrored))?;
    put_place::<R>(buffer, at, piece.place)
}

// A laid piece, or a hyphen for a node set aside.
fn put_laid<R: Ring>(buffer: &mut [u8], at: usize, laid: &Option<Placed<R::Plain>>) -> Option<usize>
    ensures { Puts buffer.old at (laid_text R.exact (laid_view R.exact R.listed laid.now)) buffer.new result }
{
    match laid {
        Some(piece) => put_piece::<R>(buffer, at, piece),
        None => put(buffer, at, b"-"),
    }
}

fn put_line<R: Ring>(buffer: &mut [u8], at: usize, row: &Row<R::Plain>) -> Option<usize>
    ensures { Puts buffer.old at (line R.exact (row_view R.exact R.listed row.now)) buffer.new result }
{
    let at = put_laid::<R>(buffer, at, &row.laid)?;
    put(buffer, at, b"\n")
}

// A line for each row.
pub(crate) fn put_lines<R: Ring>(buffer: &mut [u8], rows: &[Row<R::Plain>]) -> Option<usize>
    ensures { Puts buffer.old 0 (cutting_list R.exact (map (row_view R.exact R.listed) rows.now)) buffer.new result }
{
    let mut end = 0;
    for row in rows {
        end = put_line::<R>(buffer, end, row)?;
    }
    Some(end)
}
