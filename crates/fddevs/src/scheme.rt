// What a wire has for the number of a part where it comes from outside or leads there. It is a number and no enum, as
// wires are ordered, written and read by their four bytes.
pub const OUTSIDE: u8 = 255;

// A wire (coupling): from an output of the source part to an input of the target part. Where the source is outside,
// `output` is the number of an outer input; where the target is outside, `input` is the number of an outer output.
// Wires are ordered by their four bytes.
#[derive(Clone, Copy, PartialEq, Eq, PartialOrd, Ord, Debug)]
pub struct Wire {
    pub source: u8,
    pub output: u8,
    pub target: u8,
    pub input: u8,
}

// What a scheme may do: an outer input comes, a due part takes its internal step, or ticks pass.
#[derive(Clone, Copy, PartialEq, Eq, Debug)]
pub enum Move {
    Outer(u8),
    Internal(u8),
    Delay(u32),
}
