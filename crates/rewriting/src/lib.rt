// The rows of a set as records, and records kept in a book and written as a set again.
#![tactic(auto)]

pub mod again;
pub mod records;
