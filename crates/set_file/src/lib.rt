// Set files: a set of rows written as a file, and read again.
#![tactic(auto)]

pub mod layout;
pub mod reader;
pub mod rows;
#[cfg(test)]
mod tests;
pub mod writing;
