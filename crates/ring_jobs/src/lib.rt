// Jobs over a ring: every list of coefficients becomes a ring value, once.
#![tactic(auto)]

pub mod job;
pub mod making;
