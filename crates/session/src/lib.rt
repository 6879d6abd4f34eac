// The language of sessions: one command a line.
#![tactic(auto)]

pub mod command;
pub mod numeral;
pub mod parse;
