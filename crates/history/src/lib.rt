// The calls on an examination, in any order, and the law that holds of them.
#![tactic(auto)]

pub mod laws;
pub mod verdict;
