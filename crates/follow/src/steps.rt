ghost use Rattle.std.specs.Prelude.{◌≡◌, nat_lt};
ghost use Rattle.fddevs.specs.Machine.{when, has_phase};
ghost use Rattle.fddevs.specs.Part.{begin, fresh, remaining};
ghost use Rattle.follow.specs.Follow.{spent, after_delay_in, arrival_in, input_in, internal_in, moved};
ghost use Rattle.follow.specs.Laws.{FollowsExactly};

use crate::moves::{Arrival, Stuck};
use bank::interface::Bank;
use fddevs::part::{Mark, PartMove, PartState, Span};

// What remains of the lifespan that a part carries. It is at most that lifespan, so that it fits where it is cast.
pub fn remaining(state: PartState) -> Span
    ensures { result ≡ remaining state }
{
    match state.lifespan {
        Span::Unlimited => Span::Unlimited,
        Span::Ticks(ticks) => {
            let left = u64::from(ticks).saturating_sub(state.elapsed);
            Span::Ticks(left as u16)
        }
    }
}

// Whether the elapsed ticks equal the carried lifespan.
fn is_spent(state: PartState) -> bool
    ensures { result ≡ spent state.lifespan state.elapsed }
{
    match state.lifespan {
        Span::Unlimited => false,
        Span::Ticks(ticks) => state.elapsed == u64::from(ticks),
    }
}

// A phase from the beginning of a lifespan.
fn fresh(phase: u8, lifespan: Span) -> PartState
    ensures { result ≡ record { phase = phase; lifespan = lifespan; elapsed = 0 } }
{
    PartState {
        phase,
        lifespan,
        elapsed: 0,
    }
}

fn take_delay(state: PartState, ticks: u32) -> Result<PartState, Stuck>
    ensures { result ≡ after_delay_in state ticks }
{
    match state.elapsed.checked_add(u64::from(ticks)) {
        Some(elapsed) if state.lifespan.lasts(elapsed) => Ok(PartState { elapsed, ..state }),
        None if state.lifespan == Span::Unlimited => Err(Stuck::TooLong),
        _ => Err(Stuck::NotAllowed),
    }
}

// A part of a bank, by its number. It is stepped on its state, which says more than the cell of a row that `stepping` steps:
// so `is_spent` and `fresh` above are of another type than those there.
#[derive(Drop)]
struct Part<'a, B> {
    bank: &'a B,
    number: u8,
}

impl<B: Bank> Part<'_, B> {
    // A phase with its own lifespan, from the beginning.
    fn enter(&self, phase: u8) -> Option<PartState>
        ensures { result ≡ when (has_phase (B.family self.now.bank.now) self.now.number phase) (fresh ((B.family self.now.bank.now).part self.now.number) phase) }
    {
        let lifespan = self.bank.lifespan(self.number, phase)?;
        Some(fresh(phase, lifespan))
    }

    // Where an input leads, with the lifespan of the phase that it leads to.
    fn arrival(&self, phase: u8, input: u8) -> Option<Arrival>
        ensures { result ≡ arrival_in (B.family self.now.bank.now) self.now.number phase input }
    {
        let external = self.bank.external(self.number, phase, input)?;
        let lifespan = self.bank.lifespan(self.number, external.next)?;
        Some(Arrival { external, lifespan })
    }

    fn take_input(&self, state: PartState, input: u8) -> Option<PartState>
        ensures { result ≡ input_in (B.family self.now.bank.now) self.now.number state input }
    {
        let Arrival { external, lifespan } = self.arrival(state.phase, input)?;
        match external.mark {
            Mark::Restart => Some(fresh(external.next, lifespan)),
            Mark::Keep => Some(PartState {
                phase: external.next,
                ..state
            }),
        }
    }

    fn take_internal(&self, state: PartState) -> Option<PartState>
        ensures { result ≡ internal_in (B.family self.now.bank.now) self.now.number state }
    {
        if !is_spent(state) {
            return None;
        }
        self.enter(self.bank.next(self.number, state.phase)?)
    }

    fn make_move(&self, state: PartState, a: PartMove) -> Result<PartState, Stuck>
        ensures { result ≡ moved (B.family self.now.bank.now) self.now.number state a }
    {
        match a {
            PartMove::Input(input) => self.take_input(state, input).ok_or(Stuck::NotAllowed),
            PartMove::Internal => self.take_internal(state).ok_or(Stuck::NotAllowed),
            PartMove::Delay(ticks) => take_delay(state, ticks),
        }
    }
}

// The state in which a part begins.
pub fn begin<B: Bank>(bank: &B, part: u8) -> Option<PartState>
    ensures { result ≡ when (nat_lt part (B.family bank.now).count) (begin ((B.family bank.now).part part)) }
{
    let part = Part { bank, number: part };
    part.enter(bank.start(part.number)?)
}

// What comes of a move of a part: exactly the step that the formalism allows.
pub fn step<B: Bank>(bank: &B, part: u8, state: PartState, a: PartMove) -> Result<PartState, Stuck>
    ensures answer { result ≡ moved (B.family bank.now) part state a }
    ensures exact { FollowsExactly (B.family bank.now) part state a result }
{
    Part { bank, number: part }.make_move(state, a)
}
