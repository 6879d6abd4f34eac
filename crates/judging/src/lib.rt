// Proof files judged: a set by its rows, a witness by its steps.
#![tactic(auto)]

pub mod barring;
mod closing;
pub mod judging;
mod phases;
mod set;
mod walking;
