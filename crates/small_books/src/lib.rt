// Books whose coefficients are at most 32 in size, over rings whose operations enlarge coefficients little:
// nothing that their check works out comes near the plane's bound, so it decides exactly whether the book is accepted.
#![tactic(auto)]

ghost use Rattle.std.specs.Result.{MatchResult};
ghost use Rattle.chains.specs.Accepted.{Accepted};
ghost use Rattle.edges.specs.Views.{book_view};
ghost use Rattle.book.specs.Points.{Judged, points};
ghost use Rattle.small_books.specs.Sizes.{Small, NotAccepted, SmallBooksStayOnThePlane};

use book::check::check;
use book::fault::BookFault;
use edges::rows::Book;
use rings::ring::Ring;
use rings::sizes::SmallRing;
use std::alloc::Global;

// Every value that the check of such a book works out is on the plane.
pub fn small_books_stay_on_the_plane<R: SmallRing>()
    ensures { SmallBooksStayOnThePlane R.Ring.exact }
{}

// The check of a book. Where the book's coefficients are small the ring never refuses, so that exactly the accepted books pass.
pub fn check_small<R: SmallRing>(heap: Global, book: &Book<R>) -> Result<(), BookFault<R>>
    ensures first { let B = book_view R.Ring.exact R.Ring.value book.now in Judged R.Ring.exact B R.Ring.value result (points R.Ring.exact B) }
    ensures decides { let B = book_view R.Ring.exact R.Ring.value book.now in Small R.Ring.exact B →
        MatchResult result (λ _. Accepted R.Ring.exact B) (NotAccepted (Accepted R.Ring.exact B)) }
{
    check(heap, book)
}
