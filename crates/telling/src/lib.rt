// Nodes, cursors and pieces in words, as the programs print them.
#![tactic(auto)]

pub mod counts;
pub mod cursors;
pub mod names;
pub mod pieces;
