// The check of a book, point by point.
ghost use Rattle.std.specs.Prelude.{[], ◌∷◌, MatchResult};
ghost use Rattle.chains.specs.Accepted.{Accepted};
ghost use Rattle.edges.specs.Views.{book_view};
ghost use Rattle.book.specs.Points.{Judged, Rejects, WorkedOnThePlane, points};
ghost use Rattle.book.specs.Points.Point.{the_factor, length_of, subdivision_of, outline_of, children_of};

use crate::balance::tile_difference;
use crate::fault::BookFault;
use crate::labels::{factor_fits, length_fits, subdivision_fits};
use crate::outlines::outline_closes;
use edges::rows::Book;
use rings::ring::Ring;
use std::alloc::Global;

// One point each: a test, and its fault. (What they share is the `if` alone, which a function over both would not make shorter.)
// The factor is real and above 1.
fn check_factor<R: Ring>(book: &Book<R>) -> Result<(), BookFault<R>>
    ensures { Judged R.exact (book_view R.exact R.value book.now) R.value result (the_factor ∷ []) }
{
    if factor_fits(book)? {
        Ok(())
    } else {
        Err(BookFault::Factor(book.labels.len()))
    }
}

// A label's length is real and above 0.
fn check_length<R: Ring>(book: &Book<R>, label: usize) -> Result<(), BookFault<R>>
    ensures { Judged R.exact (book_view R.exact R.value book.now) R.value result (length_of label ∷ []) }
{
    if length_fits(book, label)? {
        Ok(())
    } else {
        Err(BookFault::Length(label))
    }
}

// A label's subdivision fits it.
fn check_subdivision<R: Ring>(book: &Book<R>, label: usize) -> Result<(), BookFault<R>>
    ensures { Judged R.exact (book_view R.exact R.value book.now) R.value result (subdivision_of label ∷ []) }
{
    if subdivision_fits(book, label)? {
        Ok(())
    } else {
        Err(BookFault::Subdivision(label))
    }
}

// A tile's outline closes, with a positive area.
fn check_outline<R: Ring>(book: &Book<R>, tile: usize) -> Result<(), BookFault<R>>
    ensures { Judged R.exact (book_view R.exact R.value book.now) R.value result (outline_of tile ∷ []) }
{
    if outline_closes(book, tile)? {
        Ok(())
    } else {
        Err(BookFault::Outline(tile))
    }
}

// A tile's children balance its inflated outline.
fn check_children<R: Ring>(heap: Global, book: &Book<R>, tile: usize) -> Result<(), BookFault<R>>
    ensures { Judged R.exact (book_view R.exact R.value book.now) R.value result (children_of tile ∷ []) }
{
    match tile_difference(heap, book, tile)? {
        None => Ok(()),
        Some(difference) => Err(BookFault::Unbalanced(tile, difference)),
    }
}

// The check of a book, point by point, each over all labels or tiles before the next: the first fault, or the book is accepted.
pub fn check<R: Ring>(heap: Global, book: &Book<R>) -> Result<(), BookFault<R>>
    ensures first { let B = book_view R.exact R.value book.now in Judged R.exact B R.value result (points R.exact B) }
    ensures decides { let B = book_view R.exact R.value book.now in MatchResult result
        (λ _. Accepted R.exact B × WorkedOnThePlane R.exact B)
        (Rejects R.exact B R.value) }
{
    check_factor(book)?;
    (0..book.labels.len()).try_for_each(|label| check_length(book, label))?;
    (0..book.labels.len()).try_for_each(|label| check_subdivision(book, label))?;
    (0..book.tiles.len()).try_for_each(|tile| check_outline(book, tile))?;
    (0..book.tiles.len()).try_for_each(|tile| check_children(heap, book, tile))
}
