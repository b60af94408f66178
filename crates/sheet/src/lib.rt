// Open and finished sheets over any placer.
#![tactic(auto)]

pub mod ends;
pub mod fault;
pub mod filing;
pub mod finished;
pub mod laying;
pub mod moves;
pub mod open;
pub mod standing;
