// Any calls on a new sheet, and the law of conservation that they keep.
#![tactic(auto)]

pub mod answer;
pub mod call;
pub mod examples;
pub mod law;
mod making;
pub mod memoized;
mod steps;
