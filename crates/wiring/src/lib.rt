// The wiring of a panel: its file, and the look-ups of its wires.
#![tactic(auto)]

mod check;
pub mod laws;
pub mod lookup;
pub mod reading;
mod rule;
#[cfg(test)]
mod tests;
pub mod wires;
