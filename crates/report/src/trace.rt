ghost use Rattle.std.specs.Prelude.{◌≡◌, IfOk};
ghost use Rattle.report.specs.Followed.{told, stuck_in};

use crate::words::{At, Sent, Step};
use bank::interface::Bank;
use fddevs::part::{Output, PartMove, PartState};
use follow::moves::Stuck;
use follow::steps::{begin, step};
use std::alloc::{AllocError, Global};
use std::fmt;

// A part followed: the first move that it did not make, if any, and a line for each move.
#[derive(Drop)]
pub struct Followed {
    pub stuck: Option<usize>,
    pub text: String,
}

// A move that was made from a state of a part with this output, and the state that it led to.
#[derive(Clone, Copy)]
struct Made {
    a: PartMove,
    output: Option<Output>,
    to: PartState,
}

// A move that was not made.
#[derive(Clone, Copy)]
struct NotMade(PartMove, Stuck);

impl fmt::Display for Made {
    fn fmt<W: fmt::Write>(&self, f: &mut fmt::Formatter<W>) -> fmt::Result {
        let a = Step(self.a);
        let to = At(self.to);
        match (self.a, self.output) {
            (PartMove::Internal, Some(Output::Sends(output))) => {
                write!(f, "{a}, sends {output}: {to}")
            }
            _ => write!(f, "{a}: {to}"),
        }
    }
}

impl fmt::Display for NotMade {
    fn fmt<W: fmt::Write>(&self, f: &mut fmt::Formatter<W>) -> fmt::Result {
        let a = Step(self.0);
        match self.1 {
            Stuck::NotAllowed => write!(f, "{a}: not allowed"),
            Stuck::TooLong => write!(f, "{a}: more ticks than can be counted"),
        }
    }
}

// Follows a part from its start; none where there is no such part. A move that is not allowed leaves the part as it is.
pub fn follow_part<B: Bank>(
    heap: Global,
    bank: &B,
    part: u8,
    moves: &[PartMove],
) -> Result<Option<Followed>, AllocError>
    ensures { IfOk result (λ o. told o ≡ stuck_in (B.family bank.now) part moves.now) }
{
    let Some(mut state) = begin(bank, part) else {
        return Ok(None);
    };
    let mut text = format!(in heap; "  start: {}\n", At(state))?;
    let mut stuck = None;
    for (k, a) in moves.iter().enumerate() {
        match step(bank, part, state, *a) {
            Ok(to) => {
                let output = bank.output(part, state.phase);
                writeln!(text, "  {}", Made { a: *a, output, to })?;
                state = to;
            }
            Err(why) => {
                writeln!(text, "  {}", NotMade(*a, why))?;
                stuck = stuck.or(Some(k));
            }
        }
    }
    Ok(Some(Followed { stuck, text }))
}
