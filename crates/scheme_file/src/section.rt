use fddevs::part::{Counts, Output, Span};

// A part as its section gives it: the counts, the start phase, and where its phase records begin.
#[derive(Clone, Copy)]
pub struct Section {
    pub counts: Counts,
    pub start: u8,
    pub records: usize,
}

// What a phase record says of the phase itself.
#[derive(Clone, Copy)]
pub struct Phase {
    pub lifespan: Span,
    pub next: u8,
    pub output: Output,
}

// What is tested of each section. They are no closures: the definitions name them too, with what each rests on.
#[derive(Clone, Copy)]
pub enum Test {
    Length,
    Limits,
    Names,
}
