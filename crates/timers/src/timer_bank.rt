ghost use Rattle.std.specs.Prelude.{◌≡◌, IfOk};
ghost use Rattle.bank.specs.OrIdle.{or_idle};
ghost use Rattle.timers.specs.Bank.{held_family};
ghost use Rattle.timers.specs.Timers.{made_family, timer_family};
ghost use Rattle.timers.specs.Settings.{timers_within};

use crate::setting::Setting;
use crate::timers::Timers;
use crate::vetting::vet;
use bank::interface::Bank;
use bank::or_idle::OrIdle;
use fddevs::part::{Counts, External, Mark, Output, Span};
use std::alloc::{AllocError, Global};

// The timer bank, or the idle bank where its vetting refused.
pub type TimerBank = OrIdle<Timers>;

// Phases and inputs are numbers here as in every bank's answers. That the number of timers and their times fit is proved
// where they are cast: a `try_from` would add an error that cannot come.
impl Bank for Timers {
    ghost family = { λ x. timer_family x.settings.items };

    ghost limits = { λ b. timers_within b.settings.items b.vetted };

    fn part_count(&self) -> u8 {
        self.settings.len() as u8
    }

    fn counts(&self, part: u8) -> Option<Counts> {
        (part < self.part_count()).then_some(Counts {
            phases: 4,
            inputs: 2,
            outputs: 2,
        })
    }

    fn start(&self, part: u8) -> Option<u8> {
        (part < self.part_count()).then_some(0)
    }

    fn lifespan(&self, part: u8, phase: u8) -> Option<Span> {
        if part >= self.part_count() || phase >= 4 {
            return None;
        }
        let setting = self.settings[usize::from(part)];
        match phase {
            1 => Some(Span::Ticks(setting.operate as u16)),
            3 => Some(Span::Ticks(setting.hold as u16)),
            _ => Some(Span::Unlimited),
        }
    }

    fn next(&self, part: u8, phase: u8) -> Option<u8> {
        if part >= self.part_count() || phase >= 4 {
            return None;
        }
        match phase {
            1 => Some(2),
            3 => Some(0),
            _ => Some(phase),
        }
    }

    fn output(&self, part: u8, phase: u8) -> Option<Output> {
        if part >= self.part_count() || phase >= 4 {
            return None;
        }
        match phase {
            1 => Some(Output::Sends(0)),
            3 => Some(Output::Sends(1)),
            _ => Some(Output::Silent),
        }
    }

    fn external(&self, part: u8, phase: u8, input: u8) -> Option<External> {
        if part >= self.part_count() || phase >= 4 || input >= 2 {
            return None;
        }
        match (phase, input) {
            (0, 0) => Some(External {
                next: 1,
                mark: Mark::Restart,
            }),
            (3, 0) => Some(External {
                next: 2,
                mark: Mark::Restart,
            }),
            (1, 1) => Some(External {
                next: 0,
                mark: Mark::Restart,
            }),
            (2, 1) => Some(External {
                next: 3,
                mark: Mark::Restart,
            }),
            _ => Some(External {
                next: phase,
                mark: Mark::Keep,
            }),
        }
    }
}

// The bank of these timers, or the idle bank where the vetting refuses them.
pub fn make(heap: Global, settings: &[Setting]) -> Result<TimerBank, AllocError>
    ensures { IfOk result (λ b. or_idle held_family b.bank ≡ made_family settings.now) }
{
    if vet(settings).is_err() {
        return Ok(OrIdle { bank: None });
    }
    let settings = settings.to_vec(heap)?;
    Ok(OrIdle {
        bank: Some(Timers { settings }),
    })
}
