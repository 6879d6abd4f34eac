// Worked cases: calls on examinations, with the answers that the definitions must give.
#![tactic(auto)]

pub mod cases;
