// Laying a whole job: descending above the depth and laying at it, until nothing is left.
#![tactic(auto)]

pub mod job;
pub mod laying;
pub mod measured;
