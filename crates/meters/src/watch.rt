// Counts one edge.
ghost use Rattle.std.specs.Prelude.{◌≡◌};
ghost use Rattle.exact.specs.Residues.{residue};
ghost use Rattle.chains.specs.Edges.{same_edge};
ghost use Rattle.edges.specs.Views.{edge_view};
ghost use Rattle.meters.specs.Counts.{residues, reduced, watched};
ghost use Rattle.meters.specs.CountLaws.{residues_laws, watch_reads};

use crate::count::Count;
use crate::meter::Meter;
use crate::span::Span;
use edges::rows::Edge;
use rings::ring::Ring;

// Watches one edge, its direction taken modulo n: 1 on it, -1 on it from its other end where its label is plain, else 0.
#[derive(Debug, Clone, Copy)]
pub struct Watch<R> {
    pub edge: Edge<R>,
}

impl<R: Ring> Watch<R> {
    // Whether the edge is the watched one.
    fn names(&self, edge: &Edge<R>) -> bool
        ensures { result ≡ same_edge R.exact (edge_view R.exact R.value edge.now) (reduced R.exact (edge_view R.exact R.value self.now.edge)) }
    {
        let watched = Edge {
            direction: self.edge.direction % R::N,
            ..self.edge
        };
        *edge == watched
    }
}

impl<R: Ring> Meter<R> for Watch<R> {
    type Value = Count;

    ghost group = { residues };

    ghost worth = { λ c. residue c.at };

    ghost reads = { λ m E value B x. residue (watched E B (edge_view E value m.edge) x) };

    ghost lawful = { residues_laws };

    ghost tied = { record { zero = λ s e. e; sum = λ s t u e. e; opposite = λ s t e. e } };

    ghost reads_edges = { λ m B. watch_reads R.exact R.lawful B (edge_view R.exact R.value m.edge) };

    fn read(&self, span: &Span<R>) -> Count {
        if self.names(&span.edge) {
            return Count { at: 1 };
        }
        let turned = span.turned();
        if !span.arrowed && self.names(&turned.edge) {
            return Count { at: -1 };
        }
        Count { at: 0 }
    }
}
