// Where a child lies under a placed parent, and whether a placed tile's corners are on the plane.
ghost use Rattle.std.specs.Prelude.{◌≡◌, true, ◌&&◌, map};
ghost use Rattle.job_rows.specs.Shapes.{step_of};
ghost use Rattle.edges.specs.Answers.{Worked};
ghost use Rattle.edges.specs.Views.{placement_view, book_view};
ghost use Rattle.chains.specs.Edges.{along};
ghost use Rattle.chains.specs.Placements.{child_of};
ghost use Rattle.nodes.specs.OnPlane.{kept_child, kept_along, kept_image, kept_corners_from, kept_corners};

use edges::edge::{end_of, heading_of, image_of};
use edges::lookups::steps_of;
use edges::rows::{Book, Placed, Step};
use rings::fault::RingFault;
use rings::ring::Ring;

// A child under a placed parent: at F·P + ζ^k·v with turn k + k' and its own mark or, where the parent is mirrored,
// at F·P + ζ^k·conj v with turn k - k' and the other mark.
pub fn child_under<R: Ring>(
    book: &Book<R>,
    parent: &Placed<R>,
    child: &Placed<R>,
) -> Result<Placed<R>, RingFault>
    ensures { let B = book_view R.exact R.value book.now in Worked result
        (λ p. placement_view R.exact R.value p ≡ child_of R.exact B (placement_view R.exact R.value parent.now) (placement_view R.exact R.value child.now))
        (kept_child R.exact B (placement_view R.exact R.value parent.now) (placement_view R.exact R.value child.now) ≡ true) }
{
    let stretched = Placed {
        place: book.factor.mul(parent.place)?,
        ..*parent
    };
    let place = image_of(&stretched, child.place)?;
    Ok(Placed {
        tile: child.tile,
        turn: heading_of(parent, child.turn),
        mirrored: child.mirrored != parent.mirrored,
        place,
    })
}

// The corner that a step along a label comes to; refused where the step, the corner, or where a placement brings it leaves the plane.
fn corner_after<R: Ring>(
    book: &Book<R>,
    p: &Placed<R>,
    e: usize,
    j: u32,
    q: R,
) -> Result<R, RingFault>
    ensures { let B = book_view R.exact R.value book.now in Worked result
        (λ z. R.value z ≡ along R.exact B e j (R.value q))
        ((kept_along R.exact B e j (R.value q) && kept_image R.exact (placement_view R.exact R.value p.now) (along R.exact B e j (R.value q))) ≡ true) }
{
    let corner = end_of(book, e, j, q)?;
    image_of(p, corner)?;
    Ok(corner)
}

// Refuses where something that the formulas make for the corners of some steps from 0, brought by a placement, leaves the plane.
fn corners_along<R: Ring>(book: &Book<R>, p: &Placed<R>, steps: &[Step]) -> Result<(), RingFault>
    ensures { Worked result
        (λ _. Unit {0})
        (kept_corners_from R.exact (book_view R.exact R.value book.now) (placement_view R.exact R.value p.now) (map step_of steps.now) R.exact.zero ≡ true) }
{
    let mut q = R::zero();
    for s in steps {
        q = corner_after(book, p, s.label, s.direction, q)?;
    }
    Ok(())
}

// Refuses where something that the formulas make for a placed tile's own corners leaves the plane.
pub(crate) fn corners_kept<R: Ring>(book: &Book<R>, p: &Placed<R>) -> Result<(), RingFault>
    ensures { Worked result
        (λ _. Unit {0})
        (kept_corners R.exact (book_view R.exact R.value book.now) (placement_view R.exact R.value p.now) ≡ true) }
{
    corners_along(book, p, steps_of(book, p.tile))
}

// Whether all that the formulas make for a placed tile's own corners is on the plane.
pub fn corners_stay<R: Ring>(book: &Book<R>, p: &Placed<R>) -> bool
    ensures { result ≡ kept_corners R.exact (book_view R.exact R.value book.now) (placement_view R.exact R.value p.now) }
{
    corners_kept(book, p).is_ok()
}
