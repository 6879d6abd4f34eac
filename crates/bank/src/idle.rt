ghost use Rattle.fddevs.specs.Machine.{idle_family};
ghost use Rattle.bank.specs.Limits.{idle_within};

use crate::interface::Bank;
use fddevs::part::{Counts, External, Output, Span};

// The idle bank: one part with one unlimited phase, no inputs and no outputs.
#[derive(Clone, Copy)]
pub struct Idle;

impl Bank for Idle {
    ghost family = { λ _. idle_family };

    ghost limits = { λ _. idle_within };

    fn part_count(&self) -> u8 {
        1
    }

    fn counts(&self, part: u8) -> Option<Counts> {
        (part == 0).then_some(Counts {
            phases: 1,
            inputs: 0,
            outputs: 0,
        })
    }

    fn start(&self, part: u8) -> Option<u8> {
        (part == 0).then_some(0)
    }

    fn lifespan(&self, part: u8, phase: u8) -> Option<Span> {
        (part == 0 && phase == 0).then_some(Span::Unlimited)
    }

    fn next(&self, part: u8, phase: u8) -> Option<u8> {
        (part == 0 && phase == 0).then_some(0)
    }

    fn output(&self, part: u8, phase: u8) -> Option<Output> {
        (part == 0 && phase == 0).then_some(Output::Silent)
    }

    fn external(&self, _part: u8, _phase: u8, _input: u8) -> Option<External> {
        None
    }
}
