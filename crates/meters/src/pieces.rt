// What a meter reads off a placed tile: once round its outline, step by step.
// An edge is told between the places of two corners, where a mirror has turned the step to its conjugate: that is a step of the book only
// where lengths are real, as they are in every accepted book. So what is read is told of such books.
ghost use Rattle.std.specs.Prelude.{◌≡◌, ◌+◌, ◌%◌, true, ◌&&◌, map};
ghost use Rattle.exact.specs.Cyclotomic.{half};
ghost use Rattle.exact.specs.Groups.{times};
ghost use Rattle.chains.specs.Counts.{reading};
ghost use Rattle.chains.specs.Edges.{along, step_count, walk};
ghost use Rattle.chains.specs.Placements.{image, placed_entry, placed, placed_outline};
ghost use Rattle.chains.specs.Theorems.{RealLengths};
ghost use Rattle.edges.specs.Answers.{Worked};
ghost use Rattle.edges.specs.Views.{edge_view, placement_view, book_view};
ghost use Rattle.job_rows.specs.Shapes.{step_of};
ghost use Rattle.nodes.specs.OnPlane.{kept_along, kept_image, kept_corners_from, kept_corners};
ghost use Rattle.meters.specs.Spans.{Shows, Leads};

use crate::meter::Meter;
use crate::span::Span;
use edges::edge::{end_of, heading_of, image_of};
use edges::lookups::{is_arrowed, steps_of};
use edges::rows::{Book, Edge, Placed, Step};
use rings::fault::RingFault;
use rings::group::Group;
use rings::ring::Ring;

// A corner of a placed tile: where the outline has it, and where it lies.
#[derive(Clone, Copy)]
struct Corner<R> {
    own: R,
    placed: R,
}

// The corner that a step comes to; refused where the step, the corner, or where it lies leaves the plane.
fn corner_after<R: Ring>(
    book: &Book<R>,
    p: &Placed<R>,
    s: &Step,
    from: R,
) -> Result<Corner<R>, RingFault>
    ensures { let E = R.exact in let B = book_view E R.value book.now in let P = placement_view E R.value p.now in let next = along E B s.now.label s.now.direction (R.value from) in Worked result
        (λ c. (R.value c.own ≡ next) × (R.value c.placed ≡ image E P next))
        ((kept_along E B s.now.label s.now.direction (R.value from) && kept_image E P next) ≡ true) }
{
    let own = end_of(book, s.label, s.direction, from)?;
    let placed = image_of(p, own)?;
    Ok(Corner { own, placed })
}

// The opposite of a direction.
fn opposed<R: Ring>(direction: u32) -> u32
    ensures { result ≡ (direction + half R.exact) % R.exact.n }
{
    (direction % R::N + R::N / 2) % R::N
}

// The edge that a step of a placed outline counts, between the two places that the step leads from and to.
fn span_of<R: Ring>(book: &Book<R>, p: &Placed<R>, s: &Step, from: R, to: R) -> Span<R>
    ensures { let E = R.exact in let B = book_view E R.value book.now in let P = placement_view E R.value p.now in
        RealLengths E B → (q : E.Elem) → Leads E B R.value P (step_of s.now) q from to →
        Shows E B R.value result × (edge_view E R.value result.edge ≡ (placed_entry E P (step_count E B (step_of s.now) q)).what) }
{
    let direction = heading_of(p, s.direction);
    let edge = Edge {
        label: s.label,
        direction,
        start: from,
    };
    let span = Span {
        edge,
        end: to,
        back: opposed::<R>(direction),
        arrowed: is_arrowed(book, s.label),
    };
    if s.forward { span } else { span.turned() }
}

// The reading of that edge, its sign turned for a step backward, and once more by a mirror.
fn reading_of_step<R: Ring, M: Meter<R>>(
    book: &Book<R>,
    meter: &M,
    p: &Placed<R>,
    s: &Step,
    from: R,
    to: R,
) -> M::Value
    ensures { let E = R.exact in let B = book_view E R.value book.now in let P = placement_view E R.value p.now in
        RealLengths E B → (q : E.Elem) → Leads E B R.value P (step_of s.now) q from to →
        let x = placed_entry E P (step_count E B (step_of s.now) q) in M.worth result ≡ times M.group x.count (M.reads meter.now E R.value B x.what) }
{
    let span = span_of(book, p, s, from, to);
    let value = meter.read(&span);
    let back = s.forward == p.mirrored;
    if back { value.opposite() } else { value }
}

// The readings of steps from a placed tile's first corner, added up.
fn reading_of_steps<R: Ring, M: Meter<R>>(
    book: &Book<R>,
    meter: &M,
    p: &Placed<R>,
    steps: &[Step],
) -> Result<M::Value, RingFault>
    ensures { let E = R.exact in let B = book_view E R.value book.now in let P = placement_view E R.value p.now in Worked result
        (λ v. RealLengths E B → M.worth v ≡ reading M.group (M.reads meter.now E R.value B) (placed E P (walk E B (map step_of steps.now) E.zero)))
        (kept_corners_from E B P (map step_of steps.now) E.zero ≡ true) }
{
    let mut at = Corner {
        own: R::zero(),
        placed: p.place,
    };
    let mut sum = M::Value::zero();
    for s in steps {
        let next = corner_after(book, p, s, at.own)?;
        let value = reading_of_step(book, meter, p, s, at.placed, next.placed);
        sum = sum.sum(value);
        at = next;
    }
    Ok(sum)
}

// The reading of a placed tile's outline; refused just where something that the formulas make for its own corners leaves the plane.
pub fn reading_of_piece<R: Ring, M: Meter<R>>(
    book: &Book<R>,
    meter: &M,
    p: &Placed<R>,
) -> Result<M::Value, RingFault>
    ensures { let E = R.exact in let B = book_view E R.value book.now in let P = placement_view E R.value p.now in Worked result
        (λ v. RealLengths E B → M.worth v ≡ reading M.group (M.reads meter.now E R.value B) (placed_outline E B P))
        (kept_corners E B P ≡ true) }
{
    reading_of_steps(book, meter, p, steps_of(book, p.tile))
}
