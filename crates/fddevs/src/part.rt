ghost use Rattle.std.specs.Prelude.{◌≡◌};
ghost use Rattle.fddevs.specs.Bytes.{span_of, ticks_of, output_of, mark_of};
ghost use Rattle.fddevs.specs.Rows.{lasts};

// A stretch of time: a phase's lifespan, or what remains of one. It is no `Option`: banks answer an `Option` of it.
#[derive(Clone, Copy, PartialEq, Eq, Debug)]
pub enum Span {
    Ticks(u16),
    Unlimited,
}

impl Span {
    // Whether so many ticks are at most the span.
    pub fn lasts(self, ticks: u64) -> bool
        ensures { result ≡ lasts ticks self }
    {
        match self {
            Span::Ticks(n) => ticks <= u64::from(n),
            Span::Unlimited => true,
        }
    }
}

// A span as files write it, in two bytes: 65,535 is unlimited. No lifespan is as long as that, so that none is lost when
// it is written.
impl From<u16> for Span {
    ghost from_gives = { λ v s. s ≡ span_of v };

    fn from(ticks: u16) -> Span {
        match ticks {
            u16::MAX => Span::Unlimited,
            n => Span::Ticks(n),
        }
    }
}

impl From<Span> for u16 {
    ghost from_gives = { λ s v. v ≡ ticks_of s };

    fn from(span: Span) -> u16 {
        match span {
            Span::Ticks(n) => n,
            Span::Unlimited => u16::MAX,
        }
    }
}

// What an input does to the clock of a part: keep the carried lifespan and the elapsed ticks, or restart
// with the lifespan of the phase it leads to.
#[derive(Clone, Copy, PartialEq, Eq, Debug)]
pub enum Mark {
    Keep,
    Restart,
}

// A mark as files write it: 0 is keep.
impl From<u8> for Mark {
    ghost from_gives = { λ b m. m ≡ mark_of b };

    fn from(byte: u8) -> Mark {
        match byte {
            0 => Mark::Keep,
            _ => Mark::Restart,
        }
    }
}

// What a phase's internal step sends. It is no `Option`: banks answer an `Option` of it.
#[derive(Clone, Copy, PartialEq, Eq, Debug)]
pub enum Output {
    Silent,
    Sends(u8),
}

// An output as files write it: 255 is silence.
impl From<u8> for Output {
    ghost from_gives = { λ b o. o ≡ output_of b };

    fn from(byte: u8) -> Output {
        match byte {
            u8::MAX => Output::Silent,
            o => Output::Sends(o),
        }
    }
}

// How many phases, inputs and outputs a part has. Each is numbered from 0.
#[derive(Clone, Copy, PartialEq, Eq, Debug)]
pub struct Counts {
    pub phases: u8,
    pub inputs: u8,
    pub outputs: u8,
}

// Where an input leads in a phase: the external transition.
#[derive(Clone, Copy, PartialEq, Eq, Debug)]
pub struct External {
    pub next: u8,
    pub mark: Mark,
}

// The state of a part: its phase, the lifespan it carries and the ticks elapsed. The carried lifespan need not be
// the phase's own: an input marked keep changes the phase alone.
#[derive(Clone, Copy, PartialEq, Eq, Debug)]
pub struct PartState {
    pub phase: u8,
    pub lifespan: Span,
    pub elapsed: u64,
}

// What a part may do: take an input, take its internal step, or let ticks pass.
#[derive(Clone, Copy, PartialEq, Eq, Debug)]
pub enum PartMove {
    Input(u8),
    Internal,
    Delay(u32),
}

// What a row says of a part: its phase and what remains of the lifespan it carries.
#[derive(Clone, Copy, PartialEq, Eq, Debug)]
pub struct Cell {
    pub phase: u8,
    pub remaining: Span,
}
