// The scheme file and the table bank that reads it.
#![tactic(auto)]

mod records;
pub mod scheme;
pub mod section;
pub mod table_bank;
pub mod vetting;
