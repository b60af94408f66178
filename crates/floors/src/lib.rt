// From a job to its cutting list.
#![tactic(auto)]

pub mod fault;
pub mod floor;
