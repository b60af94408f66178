// A sheet in progress saved to bytes; files judged, and read back.
#![tactic(auto)]

mod bytes;
pub mod fault;
pub mod judging;
mod matching;
mod reading;
pub mod resuming;
pub mod saving;
mod writing;
