// What reads edges.
ghost use Rattle.std.specs.Prelude.{◌≡◌};
ghost use Rattle.exact.specs.Cyclotomic.{Cyclotomic};
ghost use Rattle.exact.specs.Groups.{AbelianGroup, AbelianLaws};
ghost use Rattle.chains.specs.Books.{Book};
ghost use Rattle.chains.specs.Edges.{Edge, ReadsEdges};
ghost use Rattle.edges.specs.Views.{edge_view};
ghost use Rattle.meters.specs.Spans.{Shows};
ghost use Rattle.meters.specs.Tied.{Tied};

use crate::span::Span;
use rings::group::Group;
use rings::ring::Ring;

// Reads values off the edges of a ring's plane. Nothing refuses, and no reading changes a later one.
pub trait Meter<R: Ring> {
    type Value: Group;

    // the group that readings add up in, and what a value is worth there
    ghost group: { AbelianGroup };

    ghost worth: { Self.Value → group.Val };

    // The reading of every edge, also beyond the plane, of every book over an exact ring, where it is told which elements positions stand
    // for. (Any ring, and a group of its own: a member's type may name neither R's ring nor Value's group, as laws and clauses may.)
    ghost reads: { Self → (E : Cyclotomic) → (R → E.Elem) → Book E → Edge E → group.Val };

    // The reading of an edge of the plane, in each book that has it.
    fn read(&self, span: &Span<R>) -> Self::Value
        ensures { (B : Book R.exact) → Shows R.exact B R.value span.now → worth result ≡ reads self.now R.exact R.value B (edge_view R.exact R.value span.now.edge) };

    ghost lawful: { AbelianLaws group };

    // zero, sums and opposites of values are worth those of the group
    ghost tied: { Tied Self.Value.Group.group Self.Value.Group.worth group worth };

    // directions count modulo n, and a plain edge read from its other end gives the opposite
    ghost reads_edges: { (m : Self) (B : Book R.exact) → ReadsEdges R.exact B group (reads m R.exact R.value B) };
}
