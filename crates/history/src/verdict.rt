use proof_rules::evidence::Evidence;

// What an examination has shown.
#[derive(Clone, Copy, PartialEq, Eq, Debug)]
pub enum Verdict {
    // nothing is shown
    Open,
    // no run of the scheme enters a barred state
    Clear,
    // some run of the scheme enters a barred state
    Reached,
}

// What may change the verdict.
#[derive(Clone, Copy)]
pub enum Event {
    // a wiring takes the place of the one before
    Wired,
    // one bar more stands
    BarAdded,
    // a proof file is accepted
    Accepted(Evidence),
}
