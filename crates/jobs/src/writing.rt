// The rows and lines of a job, put onto a sheet, whose bytes lie in the value itself: to write a job takes no heap.
ghost use Rattle.std.specs.Prelude.{ℕ, List, [], ◌∷◌};
ghost use Rattle.std.specs.Fmt.{decimal};
ghost use Rattle.std.specs.List.{flat_map};
ghost use Rattle.lines.specs.Spelling.{word};
ghost use Rattle.jobs.specs.Puts.{Puts};
ghost use Rattle.jobs.specs.Rings.{order_of};
ghost use Rattle.jobs.specs.RowTexts.{line_text, label_text, subdivision_line_text, part_text, step_text, placed_text, tile_text};
ghost use Rattle.jobs.specs.Spelled.{mark};

use crate::limits::MOST_BYTES;
use crate::ring::NamedRing;
use crate::rows::{Label, Part, Placed, Step, Tile};
use arrayvec::ArrayVec;
use faults::TooShort;
use itoa::{Buffer, Integer};

pub(crate) type Sheet = ArrayVec<u8, MOST_BYTES>;

// What can be spelt: numbers, rows of them, and whole lines.
pub(crate) trait Spelt {
    ghost text: { Self → List ℕ };

    // Appends the text, or refuses where the sheet has no room for it.
    fn put(&self, sheet: &mut Sheet) -> Result<(), TooShort>
        ensures { Puts sheet.old (text self.now) sheet.new result };
}

fn put_byte(sheet: &mut Sheet, b: u8) -> Result<(), TooShort>
    ensures { Puts sheet.old (b ∷ []) sheet.new result }
{
    sheet.try_push(b).map_err(|_| TooShort)
}

// By itoa, not write!: of an Err, write! ensures nothing, so it could not be said when a sheet is full.
fn put_digits<I: Integer>(sheet: &mut Sheet, n: I) -> Result<(), TooShort>
    ensures { Puts sheet.old (I.text n) sheet.new result }
{
    let mut buffer = Buffer::new();
    let digits = buffer.format(n).as_bytes();
    sheet.try_extend_from_slice(digits).map_err(|_| TooShort)
}

// A number after its space.
#[inline(never)]
fn put_number<I: Integer>(sheet: &mut Sheet, n: I) -> Result<(), TooShort>
    ensures { Puts sheet.old (32 ∷ I.text n) sheet.new result }
{
    put_byte(sheet, b' ')?;
    put_digits(sheet, n)
}

// The same of a number without a sign. Most have one digit: it goes with its space at once, since itoa takes twice as long for it.
// (The attributes keep the longer way, by itoa, out of the loops over rows.)
#[inline(always)]
fn put_plain(sheet: &mut Sheet, n: u64) -> Result<(), TooShort>
    ensures { Puts sheet.old (32 ∷ decimal n) sheet.new result }
{
    if n < 10 {
        return sheet
            .try_extend_from_slice(&[b' ', b'0' + n as u8])
            .map_err(|_| TooShort);
    }
    put_number(sheet, n)
}

// Numbers, each type by itself: an impl for every `Integer` would clash with those of the rows. A coefficient:
impl Spelt for i64 {
    ghost text = { word };

    fn put(&self, sheet: &mut Sheet) -> Result<(), TooShort> {
        let coefficient = *self;
        if coefficient >= 0 {
            return put_plain(sheet, coefficient as u64);
        }
        put_number(sheet, coefficient)
    }
}

// The number of a label or a tile:
impl Spelt for usize {
    ghost text = { λ n. 32 ∷ decimal n };

    fn put(&self, sheet: &mut Sheet) -> Result<(), TooShort> {
        put_plain(sheet, *self as u64)
    }
}

// A turn, a direction or a depth:
impl Spelt for u32 {
    ghost text = { λ n. 32 ∷ decimal n };

    fn put(&self, sheet: &mut Sheet) -> Result<(), TooShort> {
        put_plain(sheet, u64::from(*self))
    }
}

// A ring by its order.
impl Spelt for NamedRing {
    ghost text = { λ r. 32 ∷ decimal (order_of r) };

    fn put(&self, sheet: &mut Sheet) -> Result<(), TooShort> {
        self.order().put(sheet)
    }
}

// A mark.
impl Spelt for bool {
    ghost text = { λ b. word (mark b) };

    fn put(&self, sheet: &mut Sheet) -> Result<(), TooShort> {
        u32::from(*self).put(sheet)
    }
}

// Its items, one after the other.
impl<T: Spelt> Spelt for Vec<T> {
    ghost text = { λ v. flat_map T.text v.items };

    fn put(&self, sheet: &mut Sheet) -> Result<(), TooShort> {
        for item in self {
            item.put(sheet)?;
        }
        Ok(())
    }
}

impl Spelt for Label {
    ghost text = { label_text };

    fn put(&self, sheet: &mut Sheet) -> Result<(), TooShort> {
        self.arrowed.put(sheet)?;
        self.length.put(sheet)
    }
}

impl Spelt for Part {
    ghost text = { part_text };

    fn put(&self, sheet: &mut Sheet) -> Result<(), TooShort> {
        self.label.put(sheet)?;
        self.forward.put(sheet)
    }
}

impl Spelt for Step {
    ghost text = { step_text };

    fn put(&self, sheet: &mut Sheet) -> Result<(), TooShort> {
        self.label.put(sheet)?;
        self.forward.put(sheet)?;
        self.direction.put(sheet)
    }
}

impl Spelt for Placed {
    ghost text = { placed_text };

    fn put(&self, sheet: &mut Sheet) -> Result<(), TooShort> {
        self.tile.put(sheet)?;
        self.turn.put(sheet)?;
        self.mirrored.put(sheet)?;
        self.place.put(sheet)
    }
}

// A T line with its C lines.
impl Spelt for Tile {
    ghost text = { tile_text };

    fn put(&self, sheet: &mut Sheet) -> Result<(), TooShort> {
        put_line(sheet, b'T', &self.outline)?;
        put_lines(sheet, b'C', &self.children)
    }
}

// The row's text after the letter, and the line's end.
pub(crate) fn put_line<T: Spelt>(sheet: &mut Sheet, letter: u8, row: &T) -> Result<(), TooShort>
    ensures { Puts sheet.old (line_text letter (T.text row.now)) sheet.new result }
{
    put_byte(sheet, letter)?;
    row.put(sheet)?;
    put_byte(sheet, b'\n')
}

// An S line for each label. (A loop of its own, since `put_lines` puts whole rows, and here a part of each.)
pub(crate) fn put_subdivisions(sheet: &mut Sheet, labels: &[Label]) -> Result<(), TooShort>
    ensures { Puts sheet.old (flat_map subdivision_line_text labels.now) sheet.new result }
{
    for label in labels {
        put_line(sheet, b'S', &label.subdivision)?;
    }
    Ok(())
}

// A line for each row.
pub(crate) fn put_lines<T: Spelt>(sheet: &mut Sheet, letter: u8, rows: &[T]) -> Result<(), TooShort>
    ensures { Puts sheet.old (flat_map (λ row. line_text letter (T.text row)) rows.now) sheet.new result }
{
    for row in rows {
        put_line(sheet, letter, row)?;
    }
    Ok(())
}
