ghost use Rattle.fddevs.specs.declared.part.Mark.TheVariants.{Keep};
ghost use Rattle.fddevs.specs.declared.part.Output.TheVariants.{Silent};
ghost use Rattle.fddevs.specs.declared.part.Span.TheVariants.{Unlimited};
ghost use Rattle.std.proofs.Common.{lit<, lit≤};

use crate::examination::Examination;
use crate::verdict::Verdict;
use bank::interface::Bank;
use bars::condition::Condition;
use fddevs::part::{Counts, External, Mark, Output, Span};
use fddevs::refusal::Refusal;
use std::test::Fail;

// Two parts with sixteen unlimited phases and one input each. A bank that other crates' tests shared would have to be
// public.
#[derive(Clone, Copy)]
struct Dials;

impl Bank for Dials {
    ghost family = { λ _. record { count = 2; part = λ _. record { counts = record { phases = 16; inputs = 1; outputs = 0 }; start = 0; lifespan = λ _. Unlimited; next = λ _. 0; output = λ _. Silent; external = λ _ _. record { next = 0; mark = Keep } } } };

    ghost limits = { λ _. record {
      some = lit≤ tt;
      few = lit≤ tt;
      part = λ _ _. record {
        counts = record { some_phase = lit≤ tt; few_phases = lit≤ tt; few_inputs = lit≤ tt; few_outputs = lit≤ tt };
        start_exists = lit< tt;
        phase = λ _ _. record { short = tt; next_exists = lit< tt; output_exists = tt; external_exists = λ _ _. lit< tt };
      };
    } };

    fn part_count(&self) -> u8 {
        2
    }

    fn counts(&self, part: u8) -> Option<Counts> {
        if part < 2 {
            Some(Counts {
                phases: 16,
                inputs: 1,
                outputs: 0,
            })
        } else {
            None
        }
    }

    fn start(&self, part: u8) -> Option<u8> {
        if part < 2 { Some(0) } else { None }
    }

    fn lifespan(&self, part: u8, phase: u8) -> Option<Span> {
        if part < 2 && phase < 16 {
            Some(Span::Unlimited)
        } else {
            None
        }
    }

    fn next(&self, part: u8, phase: u8) -> Option<u8> {
        if part < 2 && phase < 16 {
            Some(0)
        } else {
            None
        }
    }

    fn output(&self, part: u8, phase: u8) -> Option<Output> {
        if part < 2 && phase < 16 {
            Some(Output::Silent)
        } else {
            None
        }
    }

    fn external(&self, part: u8, phase: u8, input: u8) -> Option<External> {
        if part < 2 && phase < 16 && input < 1 {
            Some(External {
                next: 0,
                mark: Mark::Keep,
            })
        } else {
            None
        }
    }
}

fn at(part: u8, phase: u8) -> Condition {
    Condition { part, phase }
}

#[test]
fn seventeenth_bar(rt: HostRuntime) {
    let mut x = Examination::new(Dials);
    for phase in 0..16u8 {
        assert_eq!(rt; x.bar(&[at(0, phase)]), Ok(()));
    }
    assert_eq!(rt; x.bar_count(), 16);
    assert_eq!(rt; x.bar(&[at(1, 0)]), Err(Refusal::BarsFull));
    assert_eq!(rt; x.bar(&[at(0, 3)]), Err(Refusal::BarStands));
    assert_eq!(rt; x.bar(&[]), Err(Refusal::BarForm));
    assert_eq!(rt; x.bar_count(), 16);
}

#[test]
fn ill_formed_bars(rt: HostRuntime) {
    let mut x = Examination::new(Dials);
    assert_eq!(rt; x.bar(&[]), Err(Refusal::BarForm));
    assert_eq!(rt; x.bar(&[at(1, 0), at(0, 0)]), Err(Refusal::BarForm));
    assert_eq!(rt; x.bar(&[at(1, 0), at(1, 1)]), Err(Refusal::BarForm));
    assert_eq!(rt; x.bar(&[at(2, 0)]), Err(Refusal::BarForm));
    assert_eq!(rt; x.bar(&[at(0, 16)]), Err(Refusal::BarForm));
    assert_eq!(rt; x.bar_count(), 0);
}

#[test]
fn wiring_keeps_bars(rt: HostRuntime) -> Result<(), Fail> {
    let mut x = Examination::new(Dials);
    assert_eq!(rt; x.bar(&[at(0, 1), at(1, 2)]), Ok(()));
    assert_eq!(rt; x.wire(&[1, 0, 6, 1, 0, 255, 0, 0, 0]), Ok(()));
    assert_eq!(rt;
        x.wire(&[1, 0, 6, 1, 0, 255, 0, 0, 1]),
        Err(Refusal::WireNames(0))
    );
    assert_eq!(rt; x.wiring().outer_inputs(), 1);
    assert_eq!(rt; x.bar_count(), 1);
    let Some(bar) = x.bar_at(0) else {
        return Err(Fail::new("no bar"));
    };
    assert_eq!(rt; bar.conditions().len(), 2);
    assert_eq!(rt; x.verdict(), Verdict::Open);
    Ok(())
}
