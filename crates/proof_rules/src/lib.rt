// Proof files: the rules that they keep, how they are judged, and what they show.
#![tactic(auto)]

pub mod evidence;
pub mod laws;
pub mod steps;
