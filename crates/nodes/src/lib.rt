// The nodes of a job over a ring: which there are, and where they lie.
#![tactic(auto)]

pub mod address;
pub mod advancing;
pub mod composing;
pub mod fault;
pub mod going;
mod lookups;
pub mod placing;
