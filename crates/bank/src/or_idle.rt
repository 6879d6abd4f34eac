ghost use Rattle.bank.specs.OrIdle.{or_idle};
ghost use Rattle.bank.specs.Limits.{or_idle_within};

use crate::idle::Idle;
use crate::interface::Bank;
use fddevs::part::{Counts, External, Output, Span};

// A bank that was made as its vetting allowed, or the idle bank where its vetting refused. Each question goes to the one
// or the other: a function for all of them would take a closure for each.
#[derive(Drop)]
pub struct OrIdle<B: Bank> {
    pub bank: Option<B>,
}

impl<B: Bank> Bank for OrIdle<B> {
    ghost family = { λ x. or_idle B.Bank.family x.bank };

    ghost limits = { λ b. or_idle_within B.Bank.family B.Bank.limits b.bank };

    fn part_count(&self) -> u8 {
        match &self.bank {
            Some(bank) => bank.part_count(),
            None => Idle.part_count(),
        }
    }

    fn counts(&self, part: u8) -> Option<Counts> {
        match &self.bank {
            Some(bank) => bank.counts(part),
            None => Idle.counts(part),
        }
    }

    fn start(&self, part: u8) -> Option<u8> {
        match &self.bank {
            Some(bank) => bank.start(part),
            None => Idle.start(part),
        }
    }

    fn lifespan(&self, part: u8, phase: u8) -> Option<Span> {
        match &self.bank {
            Some(bank) => bank.lifespan(part, phase),
            None => Idle.lifespan(part, phase),
        }
    }

    fn next(&self, part: u8, phase: u8) -> Option<u8> {
        match &self.bank {
            Some(bank) => bank.next(part, phase),
            None => Idle.next(part, phase),
        }
    }

    fn output(&self, part: u8, phase: u8) -> Option<Output> {
        match &self.bank {
            Some(bank) => bank.output(part, phase),
            None => Idle.output(part, phase),
        }
    }

    fn external(&self, part: u8, phase: u8, input: u8) -> Option<External> {
        match &self.bank {
            Some(bank) => bank.external(part, phase, input),
            None => Idle.external(part, phase, input),
        }
    }
}
