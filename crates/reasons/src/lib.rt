// What a refusal of a proof file rests on: the part, the bar or the step at fault, and the rows before and after it.
#![tactic(auto)]

pub mod cells;
pub mod holding;
pub mod leaving;
pub mod parts;
pub mod walking;
