// The timer bank: pickup and dropout timers with an operate time and a hold time.
#![tactic(auto)]

pub mod setting;
pub mod timer_bank;
pub mod timers;
pub mod vetting;
