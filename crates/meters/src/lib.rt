// Values read off the edges of laid pieces: what a meter is, two meters, and what a meter reads off a piece list.
#![tactic(auto)]

pub mod conserving;
pub mod count;
pub mod meter;
pub mod pieces;
pub mod rows;
pub mod span;
pub mod sweeping;
pub mod watch;
