// The wires and the bars of an examination.
use bank::interface::Bank;
use bars::condition::Condition;
use examination::examination::Examination;
use examination::verdict::Verdict;
use fddevs::scheme::{OUTSIDE, Wire};
use std::alloc::{AllocError, Global};
use std::fmt;

// A verdict as a session prints it. Here too values of other crates have a type each, as in `words`.
#[derive(Clone, Copy)]
pub struct Reads(pub Verdict);

// The conditions of a bar, parted by semicolons.
#[derive(Clone, Copy)]
pub struct Conditions<'a>(pub &'a [Condition]);

#[derive(Clone, Copy)]
struct InPhase(Condition);

// The end of a wire at which it begins, and the one to which it leads: they differ in every field and word.
#[derive(Clone, Copy)]
struct Source(Wire);

#[derive(Clone, Copy)]
struct Target(Wire);

impl fmt::Display for Reads {
    fn fmt<W: fmt::Write>(&self, f: &mut fmt::Formatter<W>) -> fmt::Result {
        f.write_str(match self.0 {
            Verdict::Open => "open",
            Verdict::Clear => "clear",
            Verdict::Reached => "reached",
        })
    }
}

impl fmt::Display for InPhase {
    fn fmt<W: fmt::Write>(&self, f: &mut fmt::Formatter<W>) -> fmt::Result {
        write!(f, " part {} in phase {}", self.0.part, self.0.phase)
    }
}

impl fmt::Display for Conditions<'_> {
    fn fmt<W: fmt::Write>(&self, f: &mut fmt::Formatter<W>) -> fmt::Result {
        f.write_joined(self.0.iter().map(|condition| InPhase(*condition)), ";")
    }
}

impl fmt::Display for Source {
    fn fmt<W: fmt::Write>(&self, f: &mut fmt::Formatter<W>) -> fmt::Result {
        let output = self.0.output;
        match self.0.source {
            OUTSIDE => write!(f, "outer input {output}"),
            part => write!(f, "part {part} output {output}"),
        }
    }
}

impl fmt::Display for Target {
    fn fmt<W: fmt::Write>(&self, f: &mut fmt::Formatter<W>) -> fmt::Result {
        let input = self.0.input;
        match self.0.target {
            OUTSIDE => write!(f, "outer output {input}"),
            part => write!(f, "part {part} input {input}"),
        }
    }
}

// The outer inputs and outputs, a line for each wire by its ends, and a line for each bar by its conditions.
// As in a sheet, a text of two pieces is made before it is padded.
pub fn show<B: Bank>(heap: Global, x: &Examination<B>) -> Result<String, AllocError> {
    let wiring = x.wiring();
    let inputs = wiring.outer_inputs();
    let outputs = wiring.outer_outputs();
    let mut out = format!(in heap; "  outer inputs {inputs}, outer outputs {outputs}\n")?;
    for (k, wire) in wiring.wires().iter().enumerate() {
        let source = format!(in heap; "{}", Source(*wire))?;
        let target = Target(*wire);
        writeln!(out, "  wire {k:>3}: {source:<18} to {target}")?;
    }
    for (k, bar) in x.bars().iter().enumerate() {
        let conditions = Conditions(bar.conditions());
        writeln!(out, "  bar {k:>3}:{conditions}")?;
    }
    Ok(out)
}
