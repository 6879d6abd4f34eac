// What a session prints for people: refusals in plain words, the sheet of a bank, a part followed.
#![tactic(auto)]

pub mod rows;
pub mod sheet;
pub mod show;
pub mod trace;
pub mod words;
