// Reads what edges sweep over.
ghost use Rattle.exact.specs.Residues.{totals};
ghost use Rattle.exact.specs.Sweeps.{total_of};
ghost use Rattle.exact.proofs.Totals.{totals_laws};
ghost use Rattle.chains.specs.Edges.{edge_sweep};
ghost use Rattle.meters.specs.SweepLaws.{sweeps_read, tied_totals};

use crate::meter::Meter;
use crate::span::Span;
use rings::ring::Ring;

// Reads the sweep from an edge's start to its end, as seen from 0.
#[derive(Debug, Clone, Copy)]
pub struct SweepMeter;

impl<R: Ring> Meter<R> for SweepMeter {
    type Value = R::Sweep;

    ghost group = { totals };

    ghost worth = { R.total };

    ghost reads = { λ m E value B x. total_of E (edge_sweep E B x) };

    ghost lawful = { totals_laws };

    ghost tied = { tied_totals R.Sweep.Group.group R.Sweep.Group.worth R.total R.tied };

    ghost reads_edges = { λ m B. sweeps_read R.exact R.lawful B };

    fn read(&self, span: &Span<R>) -> R::Sweep {
        span.edge.start.sweep(span.end)
    }
}
