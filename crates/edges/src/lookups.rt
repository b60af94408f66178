// Labels and tiles by their numbers. Beyond the last label stands a plain one with no length and no parts,
// beyond the last tile one with no steps and no children.
ghost use Rattle.std.specs.Prelude.{◌≡◌, map};
ghost use Rattle.chains.specs.Books.{label_at, tile_at};
ghost use Rattle.edges.specs.Views.{placement_view, book_view};
ghost use Rattle.job_rows.specs.Shapes.{part_of, step_of};

use crate::rows::{Book, Part, Placed, Step};
use rings::ring::Ring;

pub fn length_of<R: Ring>(book: &Book<R>, e: usize) -> R
    ensures { R.value result ≡ (label_at (book_view R.exact R.value book.now) e).length }
{
    match book.labels.get(e) {
        Some(label) => label.length,
        None => R::zero(),
    }
}

pub fn is_arrowed<R: Ring>(book: &Book<R>, e: usize) -> bool
    ensures { result ≡ (label_at (book_view R.exact R.value book.now) e).arrowed }
{
    match book.labels.get(e) {
        Some(label) => label.arrowed,
        None => false,
    }
}

// The parts of label e's subdivision.
pub fn parts_of<R: Ring>(book: &Book<R>, e: usize) -> &[Part]
    ensures { map part_of result.now ≡ (label_at (book_view R.exact R.value book.now) e).subdivision }
{
    match book.labels.get(e) {
        Some(label) => label.subdivision.as_slice(),
        None => &[],
    }
}

// The steps of tile t's outline.
pub fn steps_of<R: Ring>(book: &Book<R>, t: usize) -> &[Step]
    ensures { map step_of result.now ≡ (tile_at (book_view R.exact R.value book.now) t).outline }
{
    match book.tiles.get(t) {
        Some(tile) => tile.outline.as_slice(),
        None => &[],
    }
}

// The children that tile t is cut into.
pub fn children_of<R: Ring>(book: &Book<R>, t: usize) -> &[Placed<R>]
    ensures { map (placement_view R.exact R.value) result.now ≡ (tile_at (book_view R.exact R.value book.now) t).children }
{
    match book.tiles.get(t) {
        Some(tile) => tile.children.as_slice(),
        None => &[],
    }
}
