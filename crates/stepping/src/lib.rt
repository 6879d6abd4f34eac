// A scheme stepped by its rows: its start, outer inputs, internal steps and delays.
#![tactic(auto)]

pub mod cell;
pub mod known;
mod part;
pub mod steps;
