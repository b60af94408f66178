// The check that decides whether a rule book may be used: point by point, with the first fault exactly.
#![tactic(auto)]

pub mod balance;
pub mod check;
pub mod fault;
pub mod labels;
pub mod nets;
pub mod outlines;
