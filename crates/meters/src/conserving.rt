// What meters read is conserved: theorems, asked for by the contracts of functions that do nothing.
ghost use Rattle.meters.specs.Theorems.{ReadsAlike, ReadsConserved};

use crate::meter::Meter;
use rings::ring::Ring;

// In every book, chains with equal net counts read alike.
pub fn same_nets_read_alike<R: Ring, M: Meter<R>>(meter: &M)
    ensures { ReadsAlike R.exact M.group (M.reads meter.now R.exact R.value) }
{}

// After any moves from the start, what is laid and what is lacking read together as the inflated seed reads.
pub fn traversal_conserves_readings<R: Ring, M: Meter<R>>(meter: &M)
    ensures { ReadsConserved R.exact M.group (M.reads meter.now R.exact R.value) }
{}
