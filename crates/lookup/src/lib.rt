// The rows of a set's body, found without a scan.
#![tactic(auto)]

pub mod finding;
pub mod rows;
#[cfg(test)]
mod tests;
