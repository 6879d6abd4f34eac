// The formalism: timed parts (FD-DEVS), schemes of wired parts, their steps and runs, and the refusals.
#![tactic(auto)]

pub mod laws;
pub mod part;
pub mod refusal;
pub mod scheme;
