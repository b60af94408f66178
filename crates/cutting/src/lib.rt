// The cutting list of a finished sheet.
#![tactic(auto)]

pub mod list;
mod puts;
