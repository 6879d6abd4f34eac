// What an offer shows, or why it was refused, for people.
#![tactic(auto)]

mod offer;
pub mod offers;
mod rows;
mod steps;
mod words;
