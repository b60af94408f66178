// Edges one by one: their ends, their canonical form, and where a placement brings them.
ghost use Rattle.std.specs.Prelude.{◌≡◌, if◌then◌else◌};
ghost use Rattle.rings.specs.Answers.{Exactly};
ghost use Rattle.chains.specs.Edges.{along, canonical, step_count};
ghost use Rattle.chains.specs.Placements.{image, heading, placed_entry};
ghost use Rattle.edges.specs.Views.{edge_view, counted_view, placement_view, book_view};
ghost use Rattle.job_rows.specs.Shapes.{step_of};
ghost use Rattle.edges.specs.Working.{KeptAlong, KeptImage, KeptCanonical, as_it_stands};
ghost use Rattle.edges.specs.Answers.{Worked};

use crate::lookups::{is_arrowed, length_of};
use crate::rows::{Book, Counted, Edge, Placed, Step, Stepped};
use crate::turns::{difference_of_turns, half_turn, opposed, reduced, sum_of_turns};
use rings::fault::RingFault;
use rings::ring::Ring;

// Where label e in direction j leads to from q. (The three by themselves and no `Edge`: a step backward makes its edge only from its end.)
pub fn end_of<R: Ring>(book: &Book<R>, e: usize, j: u32, q: R) -> Result<R, RingFault>
    ensures { let B = book_view R.exact R.value book.now in Worked result (λ z. R.value z ≡ along R.exact B e j (R.value q)) (KeptAlong R.exact B e j (R.value q)) }
{
    let along = length_of(book, e).turn(j)?;
    q.add(along)
}

// A step from q: what it counts and where it ends.
pub fn step_from<R: Ring>(book: &Book<R>, s: Step, q: R) -> Result<Stepped<R>, RingFault>
    ensures { let B = book_view R.exact R.value book.now in Worked result
        (λ x. (counted_view R.exact R.value x.counted ≡ step_count R.exact B (step_of s) (R.value q)) × (R.value x.end ≡ along R.exact B s.label s.direction (R.value q)))
        (KeptAlong R.exact B s.label s.direction (R.value q)) }
{
    let end = end_of(book, s.label, s.direction, q)?;
    if s.forward {
        let edge = Edge {
            label: s.label,
            direction: reduced::<R>(s.direction),
            start: q,
        };
        Ok(Stepped {
            counted: Counted { edge, back: false },
            end,
        })
    } else {
        let edge = Edge {
            label: s.label,
            direction: opposed::<R>(s.direction),
            start: end,
        };
        Ok(Stepped {
            counted: Counted { edge, back: true },
            end,
        })
    }
}

// Whether an edge is written as it stands: it is arrowed, or of a direction below n/2.
fn stands<R: Ring>(book: &Book<R>, x: &Edge<R>) -> bool
    ensures { result ≡ as_it_stands R.exact (book_view R.exact R.value book.now) (edge_view R.exact R.value x.now) }
{
    is_arrowed(book, x.label) || reduced::<R>(x.direction) < half_turn::<R>()
}

// The canonical form: a plain edge of direction n/2 or more is written from its other end, with the count's sign turned.
pub fn canonical_form<R: Ring>(book: &Book<R>, x: &Counted<R>) -> Result<Counted<R>, RingFault>
    ensures { let B = book_view R.exact R.value book.now in Worked result
        (λ y. counted_view R.exact R.value y ≡ canonical R.exact B (counted_view R.exact R.value x.now))
        (KeptCanonical R.exact B (edge_view R.exact R.value x.now.edge)) }
{
    let edge = x.edge;
    if stands(book, &edge) {
        let edge = Edge {
            label: edge.label,
            direction: reduced::<R>(edge.direction),
            start: edge.start,
        };
        return Ok(Counted { edge, back: x.back });
    }
    let start = end_of(book, edge.label, edge.direction, edge.start)?;
    let edge = Edge {
        label: edge.label,
        direction: opposed::<R>(edge.direction),
        start,
    };
    Ok(Counted {
        edge,
        back: !x.back,
    })
}

// A point as a mirror mark has it: its conjugate, or itself.
fn mirrored_point<R: Ring>(mirrored: bool, z: R) -> Result<R, RingFault>
    ensures { Exactly R.exact R.value result (if mirrored then R.exact.conj (R.value z) else R.value z) }
{
    if mirrored { z.conj() } else { Ok(z) }
}

// Where a placement brings a point.
pub fn image_of<R: Ring>(p: &Placed<R>, z: R) -> Result<R, RingFault>
    ensures { Worked result (λ y. R.value y ≡ image R.exact (placement_view R.exact R.value p.now) (R.value z)) (KeptImage R.exact (placement_view R.exact R.value p.now) (R.value z)) }
{
    let faced = mirrored_point(p.mirrored, z)?;
    let turned = faced.turn(p.turn)?;
    p.place.add(turned)
}

// The direction that a placement turns j into.
pub fn heading_of<R: Ring>(p: &Placed<R>, j: u32) -> u32
    ensures { result ≡ heading R.exact (placement_view R.exact R.value p.now) j }
{
    if p.mirrored {
        difference_of_turns::<R>(p.turn, j)
    } else {
        sum_of_turns::<R>(p.turn, j)
    }
}

// Where a placement brings a counted edge. A mirror turns the sign of the count.
pub fn placed_edge<R: Ring>(p: &Placed<R>, x: &Counted<R>) -> Result<Counted<R>, RingFault>
    ensures { Worked result
        (λ y. counted_view R.exact R.value y ≡ placed_entry R.exact (placement_view R.exact R.value p.now) (counted_view R.exact R.value x.now))
        (KeptImage R.exact (placement_view R.exact R.value p.now) (R.value x.now.edge.start)) }
{
    let start = image_of(p, x.edge.start)?;
    let edge = Edge {
        label: x.edge.label,
        direction: heading_of(p, x.edge.direction),
        start,
    };
    Ok(Counted {
        edge,
        back: x.back != p.mirrored,
    })
}
