// Placers: what answers where a node lies. One goes down from the seed; a memo stands over any placer.
#![tactic(auto)]

pub mod descent;
pub mod memo;
pub mod placer;
