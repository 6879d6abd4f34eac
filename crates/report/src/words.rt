// Values of other crates, as they are printed: each has a type here, as `Display` is written for types of one's own alone.
use fddevs::part::{External, Mark, Output, PartMove, PartState, Span};
use fddevs::refusal::Refusal;
use follow::steps::remaining;
use std::fmt;

// A refusal by its number, layer and place.
#[derive(Clone, Copy)]
pub struct Refused(pub Refusal);

// The rule that was broken, in plain words.
#[derive(Clone, Copy)]
pub struct Rule(pub Refusal);

// A number of ticks, or unlimited.
#[derive(Clone, Copy)]
pub struct Ticks(pub Span);

// The output that a step sends, or a dash.
#[derive(Clone, Copy)]
pub struct Sent(pub Output);

// Where an input leads: the phase and the mark.
#[derive(Clone, Copy)]
pub struct Leads(pub External);

// A move as it stands in a session.
#[derive(Clone, Copy)]
pub struct Step(pub PartMove);

// A part's state and what remains.
#[derive(Clone, Copy)]
pub struct At(pub PartState);

impl fmt::Display for Refused {
    fn fmt<W: fmt::Write>(&self, f: &mut fmt::Formatter<W>) -> fmt::Result {
        let number = self.0.number();
        let layer = self.0.layer().number();
        let place = self.0.place();
        write!(f, "refused {number} layer {layer} place {place}")
    }
}

// What a refusal's place counts.
fn counted(refusal: Refusal) -> Option<&'static str> {
    match refusal {
        Refusal::SectionLength(_) | Refusal::SectionCounts(_) | Refusal::SectionNames(_) => Some(
            "section",
        ),
        Refusal::TimerTime(_) => Some("timer"),
        Refusal::WireOrder(_) | Refusal::WireTwice(_) | Refusal::WireNames(_) => Some("wire"),
        Refusal::RowBytes(_)
        | Refusal::RowOrder(_, _)
        | Refusal::RowPhase(_)
        | Refusal::RowBarred(_)
        | Refusal::RowLeaves(_) => Some("row"),
        Refusal::StepNotAllowed(_) => Some("step"),
        _ => None,
    }
}

fn rule_text(refusal: Refusal) -> &'static str {
    match refusal {
        Refusal::NotWhole(_) => "the file ends early or has bytes to spare",
        Refusal::Version(_) => "the version of the file is not 01",
        Refusal::SectionLength(_) => "its length is not 4 + phases x (4 + 2 x inputs)",
        Refusal::PartCount => "a scheme has 1 to 16 parts",
        Refusal::SectionCounts(_) =>
            "a part has 1 to 64 phases, up to 16 inputs and up to 16 outputs",
        Refusal::SectionNames(_) => "a start, next phase, output or mark names nothing",
        Refusal::TimerCount => "a timer bank has 1 to 16 timers",
        Refusal::TimerTime(_) => "a time is at most 65534 ticks",
        Refusal::PairCount => "two banks have at most 16 parts together",
        Refusal::WiringCounts =>
            "a wiring has up to 32 outer inputs, up to 32 outer outputs and up to 256 wires",
        Refusal::WireOrder(_) => "it does not come after the one before it",
        Refusal::WireTwice(_) => "an earlier wire has the same source, output and target",
        Refusal::WireNames(_) => "an end names nothing, or both ends are of one part or outside",
        Refusal::BarForm =>
            "a bar has 1 to 4 conditions, their parts ascend, and each part has its phase",
        Refusal::BarStands => "a bar with these conditions stands already",
        Refusal::BarsFull => "at most 16 bars stand",
        Refusal::NoRoom => "no entry is free for a new record, or the output is too short",
        Refusal::Kind(_) => "the kind of the file is not the one that is read",
        Refusal::Body(_) => "the body is empty, not whole rows, or above 4194304 bytes",
        Refusal::RowBytes(_) => "a byte beyond its parts is not 0",
        Refusal::RowOrder(_, _) => "it is not above the row before it",
        Refusal::RowParts => "rows have 1 to 16 parts",
        Refusal::RowPhase(_) => "a part does not have its phase",
        Refusal::StartAbsent => "the row of the start is not in the set",
        Refusal::RowBarred(_) => "a bar holds in it",
        Refusal::RowLeaves(_) => "a step from it leads out of the set",
        Refusal::StepNotAllowed(_) => "it is not allowed there, or it is not a step",
        Refusal::EndNotBarred => "the state after the last step is not barred",
    }
}

impl fmt::Display for Rule {
    fn fmt<W: fmt::Write>(&self, f: &mut fmt::Formatter<W>) -> fmt::Result {
        let rule = rule_text(self.0);
        let place = self.0.place();
        match counted(self.0) {
            Some(name) => write!(f, "{name} {place}: {rule}"),
            None => f.write_str(rule),
        }
    }
}

impl fmt::Display for Ticks {
    fn fmt<W: fmt::Write>(&self, f: &mut fmt::Formatter<W>) -> fmt::Result {
        match self.0 {
            Span::Ticks(n) => n.fmt(f),
            Span::Unlimited => f.pad("unlimited"),
        }
    }
}

impl fmt::Display for Sent {
    fn fmt<W: fmt::Write>(&self, f: &mut fmt::Formatter<W>) -> fmt::Result {
        match self.0 {
            Output::Sends(o) => o.fmt(f),
            Output::Silent => f.pad("-"),
        }
    }
}

impl fmt::Display for Leads {
    fn fmt<W: fmt::Write>(&self, f: &mut fmt::Formatter<W>) -> fmt::Result {
        let next = self.0.next;
        match self.0.mark {
            Mark::Keep => write!(f, "{next} keep"),
            Mark::Restart => write!(f, "{next} restart"),
        }
    }
}

impl fmt::Display for Step {
    fn fmt<W: fmt::Write>(&self, f: &mut fmt::Formatter<W>) -> fmt::Result {
        match self.0 {
            PartMove::Input(k) => write!(f, "input {k}"),
            PartMove::Internal => f.write_str("inner"),
            PartMove::Delay(d) => write!(f, "delay {d}"),
        }
    }
}

impl fmt::Display for At {
    fn fmt<W: fmt::Write>(&self, f: &mut fmt::Formatter<W>) -> fmt::Result {
        let phase = self.0.phase;
        let carried = Ticks(self.0.lifespan);
        let elapsed = self.0.elapsed;
        let left = remaining(self.0);
        let shown = Ticks(left);
        write!(
            f,
            "phase {phase}, carried {carried}, elapsed {elapsed}, remaining {shown}"
        )?;
        match left {
            Span::Ticks(0) => f.write_str(" (due)"),
            _ => Ok(()),
        }
    }
}
