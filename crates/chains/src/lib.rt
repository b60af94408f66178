// The exact algebra of edges: theorems, asked for by the contracts of functions that do nothing.
#![tactic(auto)]

ghost use Rattle.chains.specs.Theorems.{SameNetsReadAlike, SweepsReadEdges, InflationKeepsSameNets, PlacingAndInflatingCommute, PlacingKeepsSameNets, ChildrenCompose, ChildrenBalanceTheirParent, AgreeingWhereEdgesOccurIsEnough, MovesConserveTheBoundary, TraversalConservesTheBoundary, OnlyTheRightOutlineConserves, TraversalConservesReadings, NodesAreSeedsAndChildrenInEveryJob, PendingFollowsTheCursorInEveryJob};
ghost use Rattle.chains.specs.Examples.{ChairIsAccepted, PenroseIsAccepted, OneChairLaidCounts, OutlineSweeps, WrongMarkShows, EachConditionRefuses};

use rings::group::Group;
use rings::ring::Ring;

// Chains with equal net counts have equal sums under every reading of edges into a commutative group.
pub fn same_nets_read_alike<R: Ring, G: Group>()
    ensures { SameNetsReadAlike R.exact G.group }
{}

// The sweep from an edge's start to its end is such a reading, and an outline's reading by it is its total sweep.
pub fn sweeps_read_edges<R: Ring>()
    ensures { SweepsReadEdges R.exact }
{}

// Where every subdivision fits, inflation keeps equal net counts.
pub fn inflation_keeps_same_nets<R: Ring>()
    ensures { InflationKeepsSameNets R.exact }
{}

// To inflate a placed chain is to place the inflated chain, with F·P for the place P.
pub fn placing_and_inflating_commute<R: Ring>()
    ensures { PlacingAndInflatingCommute R.exact }
{}

pub fn placing_keeps_same_nets<R: Ring>()
    ensures { PlacingKeepsSameNets R.exact }
{}

// To place by a child of a placed parent is to place by the child, then by the parent at F·P.
pub fn children_compose<R: Ring>()
    ensures { ChildrenCompose R.exact }
{}

// In an accepted book, a placed tile's children have the net counts of its outline inflated once.
pub fn children_balance_their_parent<R: Ring>()
    ensures { ChildrenBalanceTheirParent R.exact }
{}

// Chains that agree at the edges that occur in them agree at every edge.
pub fn agreeing_where_edges_occur_is_enough<R: Ring>()
    ensures { AgreeingWhereEdgesOccurIsEnough R.exact }
{}

// Each move from one frontier to another keeps the boundary conserved.
pub fn moves_conserve_the_boundary<R: Ring>()
    ensures { MovesConserveTheBoundary R.exact }
{}

// After any moves from the start, the frontier's nodes are the job's, and the boundary is conserved.
pub fn traversal_conserves_the_boundary<R: Ring>()
    ensures { TraversalConservesTheBoundary R.exact }
{}

// Put in a laid node's stead, a placement conserves the boundary only where its outline has the net counts of the node's.
pub fn only_the_right_outline_conserves<R: Ring>()
    ensures { OnlyTheRightOutlineConserves R.exact }
{}

// After any moves from the start, what is laid and what is lacking read together as the inflated seed reads.
pub fn traversal_conserves_readings<R: Ring, G: Group>()
    ensures { TraversalConservesReadings R.exact G.group }
{}

// A node is a seed tile or, down to the depth, a child of a node, and lies where that seed tile or child lies.
pub fn nodes_are_seeds_and_children<R: Ring>()
    ensures { NodesAreSeedsAndChildrenInEveryJob R.exact }
{}

// Pending nodes by the cursor: all seed tiles at the start, all but the first after advancing, the children in place of their parent after going down.
pub fn pending_follows_the_cursor()
    ensures { PendingFollowsTheCursorInEveryJob }
{}

pub fn chair_is_accepted()
    ensures { ChairIsAccepted }
{}

pub fn penrose_is_accepted()
    ensures { PenroseIsAccepted }
{}

// Each condition of acceptance refuses a book: the chair's, with one thing altered.
pub fn each_condition_refuses_a_book()
    ensures { EachConditionRefuses }
{}

// One chair, inflated once, its first child laid: the net counts of one inner edge over what is laid, what is pending and the seed.
pub fn one_chair_laid_counts_an_inner_edge()
    ensures { OneChairLaidCounts }
{}

// The total sweeps of the chair's and of Penrose's outlines.
pub fn outlines_sweep_as_computed()
    ensures { OutlineSweeps }
{}

// Two of Penrose's children differ in nothing but the mirror mark; given the other's mark, the one no longer cancels their common edge.
pub fn a_wrong_mirror_mark_shows_at_the_common_edge()
    ensures { WrongMarkShows }
{}
