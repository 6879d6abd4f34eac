use crate::state::State;
use bank::interface::Bank;

pub mod calls;

// A bank under examination, and what is held of it.
#[derive(Drop)]
pub struct Examination<B: Bank> {
    bank: B,
    state: State,
}
