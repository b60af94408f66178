// The check of a job over a ring: first whether the ring is the job's, then its book.
#![tactic(auto)]

pub mod check;
pub mod fault;
