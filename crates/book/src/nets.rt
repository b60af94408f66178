// Net counts, and the first edge at which two chains differ. Chains here have every edge in canonical form.
ghost use Rattle.std.specs.Prelude.{◌≡◌, ◌≤◌, length, pos, negsuc, ◌≤ℤ◌, if◌then◌else◌, MatchOption};
ghost use Rattle.chains.specs.Counts.{tally};
ghost use Rattle.chains.specs.Edges.{same_edge};
ghost use Rattle.edges.specs.Views.{edge_view, chain_view, count_of};
ghost use Rattle.book.specs.Differences.{gap, Agree, FirstDifference};

use crate::fault::Difference;
use edges::rows::{Counted, Edge};
use rings::ring::Ring;

// What an entry adds to the net count of an edge.
fn share<R: Ring>(x: &Counted<R>, e: &Edge<R>) -> i64
    ensures { result ≡ (if same_edge R.exact (edge_view R.exact R.value x.now.edge) (edge_view R.exact R.value e.now) then count_of x.now.back else pos 0) }
{
    match (x.edge == *e, x.back) {
        (false, _) => 0,
        (true, false) => 1,
        (true, true) => -1,
    }
}

// The net count of an edge over a chain.
pub(crate) fn net<R: Ring>(chain: &[Counted<R>], e: &Edge<R>) -> i64
    requires { length chain.now ≤ 65536 }
    ensures is { result ≡ tally (same_edge R.exact) (chain_view R.exact R.value chain.now) (edge_view R.exact R.value e.now) }
    ensures low { negsuc 8388607 ≤ℤ result }
    ensures high { result ≤ℤ pos 8388608 }
{
    chain.iter().map(|x| share(x, e)).sum()
}

// How much more one chain counts an edge than the other.
fn excess<R: Ring>(parts: &[Counted<R>], whole: &[Counted<R>], edge: &Edge<R>) -> i64
    requires { (length parts.now ≤ 65536) × (length whole.now ≤ 65536) }
    ensures { result ≡ gap R.exact (chain_view R.exact R.value parts.now) (chain_view R.exact R.value whole.now) (edge_view R.exact R.value edge.now) }
{
    net(parts, edge) - net(whole, edge)
}

// The first edge at which two chains differ: the edges of `parts` in order, then those of `whole`.
pub(crate) fn first_difference<'x, R: Ring>(
    parts: &'x [Counted<R>],
    whole: &'x [Counted<R>],
) -> Option<Difference<R>>
    requires { (length parts.now ≤ 65536) × (length whole.now ≤ 65536) }
    ensures { MatchOption result
        (Agree R.exact (chain_view R.exact R.value parts.now) (chain_view R.exact R.value whole.now))
        (λ d. FirstDifference R.exact (chain_view R.exact R.value parts.now) (chain_view R.exact R.value whole.now) (edge_view R.exact R.value d.edge) d.amount) }
{
    // A rule of the project: nested loops left by a label, and no iterator chain.
    let mut found = None;
    'search: for side in [parts, whole] {
        for x in side {
            let edge = x.edge;
            let amount = excess(parts, whole, &edge);
            if amount != 0 {
                found = Some(Difference { edge, amount });
                break 'search;
            }
        }
    }
    found
}
