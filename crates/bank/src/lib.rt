// The bank interface, the idle bank, and the banks that are made of others.
#![tactic(auto)]

pub mod idle;
pub mod interface;
pub mod or_idle;
pub mod pair;
