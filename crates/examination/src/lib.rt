// An examination: a bank with a wiring, the bars that stand, and a verdict.
#![tactic(auto)]

pub mod examination;
mod standing;
mod state;
#[cfg(test)]
mod tests;
pub mod verdict;
