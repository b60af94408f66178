// Rings of cyclotomic integers whose coefficients stay on the plane, with every operation exact.
#![tactic(auto)]

pub mod fault;
pub mod group;
pub mod plane;
pub mod ring;
pub mod rows;
pub mod sizes;
pub mod sweeps;
