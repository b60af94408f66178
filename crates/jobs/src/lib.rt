// A job as plain numbers, read from its text and written as its text.
#![tactic(auto)]

mod adding;
mod decoding;
mod draft;
pub mod job;
mod late;
mod limits;
pub mod reading;
pub mod ring;
pub mod rows;
mod writing;
