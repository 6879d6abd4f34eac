// Tests of banks on valid and damaged files and settings, and of the lines of a session.
#![tactic(auto)]

#[cfg(test)]
mod lines;
#[cfg(test)]
mod schemes;
#[cfg(test)]
mod timer_banks;
