// A book keeps records in ascending order, each once, in a list that the caller supplies.
#![tactic(auto)]

pub mod bytes;
pub mod keeping;
pub mod record;
pub mod row;
pub mod stimulus;
