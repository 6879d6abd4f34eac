// One part of a bank, followed step by step.
#![tactic(auto)]

pub mod moves;
pub mod steps;
