ghost use Rattle.std.specs.Prelude.{◌≡◌};
ghost use Rattle.bank.specs.Half.{half_of};
ghost use Rattle.bank.specs.Pair.{pair_family, pair_vetting};
ghost use Rattle.bank.specs.Limits.{pair_within};

use crate::interface::Bank;
use fddevs::part::{Counts, External, Output, Span};
use fddevs::refusal::Refusal;

// Two banks joined: the second's part numbers follow the first's. Where they have more than 16 parts together, the
// pair is the first bank alone. Each question goes to the one or the other: a function for all of them would take two
// closures for each.
#[derive(Drop)]
pub struct Pair<A: Bank, B: Bank> {
    first: A,
    second: B,
}

// Whether two banks may be joined.
pub fn vet<A: Bank, B: Bank>(first: &A, second: &B) -> Result<(), Refusal>
    ensures { result ≡ pair_vetting (A.Bank.family first.now) (B.Bank.family second.now) }
{
    if first.part_count() + second.part_count() <= 16 {
        Ok(())
    } else {
        Err(Refusal::PairCount)
    }
}

// Which of the two banks answers for a part, and the part's number there. It is no `Result`: neither is an error.
#[derive(Clone, Copy)]
pub(crate) enum Half {
    First(u8),
    Second(u8),
}

impl<A: Bank, B: Bank> Pair<A, B> {
    pub fn new(first: A, second: B) -> Self
        ensures { pair_family (A.Bank.family result.first) (B.Bank.family result.second) ≡ pair_family (A.Bank.family first) (B.Bank.family second) }
    {
        Pair { first, second }
    }

    fn half(&self, part: u8) -> Half
        ensures { result ≡ half_of (A.Bank.family self.now.first) (B.Bank.family self.now.second) part }
    {
        let count = self.first.part_count();
        if part < count || count + self.second.part_count() > 16 {
            Half::First(part)
        } else {
            Half::Second(part - count)
        }
    }
}

impl<A: Bank, B: Bank> Bank for Pair<A, B> {
    ghost family = { λ x. pair_family (A.Bank.family x.first) (B.Bank.family x.second) };

    ghost limits = { λ b. pair_within _ _ (A.Bank.limits b.first) (B.Bank.limits b.second) };

    fn part_count(&self) -> u8 {
        let first = self.first.part_count();
        let second = self.second.part_count();
        if first + second <= 16 {
            first + second
        } else {
            first
        }
    }

    fn counts(&self, part: u8) -> Option<Counts> {
        match self.half(part) {
            Half::First(part) => self.first.counts(part),
            Half::Second(part) => self.second.counts(part),
        }
    }

    fn start(&self, part: u8) -> Option<u8> {
        match self.half(part) {
            Half::First(part) => self.first.start(part),
            Half::Second(part) => self.second.start(part),
        }
    }

    fn lifespan(&self, part: u8, phase: u8) -> Option<Span> {
        match self.half(part) {
            Half::First(part) => self.first.lifespan(part, phase),
            Half::Second(part) => self.second.lifespan(part, phase),
        }
    }

    fn next(&self, part: u8, phase: u8) -> Option<u8> {
        match self.half(part) {
            Half::First(part) => self.first.next(part, phase),
            Half::Second(part) => self.second.next(part, phase),
        }
    }

    fn output(&self, part: u8, phase: u8) -> Option<Output> {
        match self.half(part) {
            Half::First(part) => self.first.output(part, phase),
            Half::Second(part) => self.second.output(part, phase),
        }
    }

    fn external(&self, part: u8, phase: u8, input: u8) -> Option<External> {
        match self.half(part) {
            Half::First(part) => self.first.external(part, phase, input),
            Half::Second(part) => self.second.external(part, phase, input),
        }
    }
}
