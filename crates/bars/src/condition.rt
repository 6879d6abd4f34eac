// The part is in the phase.
#[derive(Clone, Copy, PartialEq, Eq, Debug)]
pub struct Condition {
    pub part: u8,
    pub phase: u8,
}

// What a table of conditions holds past its conditions.
pub(crate) const NO_CONDITION: Condition = Condition { part: 0, phase: 0 };
