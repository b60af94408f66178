// Runs of calls: theorems, asked for by the contracts of functions that do nothing.
#![tactic(auto)]

ghost use Rattle.runs.specs.Law.{RunsConserve, RunsConserveReadings, RunsResume, RunsNeedNoResume, RunsTell, RunsKeepNodes};

use rings::group::Group;
use rings::ring::Ring;

// After any calls on a new sheet the boundary is conserved.
pub fn runs_conserve<R: Ring>()
    ensures { RunsConserve R.exact }
{}

// So is every reading of edges into a commutative group.
pub fn runs_conserve_readings<R: Ring, G: Group>()
    ensures { RunsConserveReadings R.exact G.group }
{}

// A resume is accepted for the lawful saves alone, and refused with the right reason and offset.
pub fn runs_resume<R: Ring>()
    ensures { RunsResume R.exact }
{}

// What any calls lead to, calls with no resume lead to.
pub fn runs_need_no_resume<R: Ring>()
    ensures { RunsNeedNoResume R.exact }
{}

// The list's records and the cursor's descents tell all of the state.
pub fn runs_tell<R: Ring>()
    ensures { RunsTell R.exact }
{}

// The nodes are the job's, and the laid pieces lie where the laid nodes lie.
pub fn runs_keep_nodes<R: Ring>()
    ensures { RunsKeepNodes R.exact }
{}
