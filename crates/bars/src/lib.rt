// Bars: the combinations of phases that must never be entered.
#![tactic(auto)]

pub mod bar;
pub mod bars;
pub mod condition;
pub mod vetting;
