ghost use Rattle.fddevs.specs.declared.part.Span.TheVariants.{Unlimited};
ghost use Rattle.fddevs.specs.declared.part.Output.TheVariants.{Silent};
ghost use Rattle.fddevs.specs.declared.part.Mark.TheVariants.{Keep};
ghost use Rattle.std.proofs.Common.{lit<, lit≤};

use crate::reading::read;
use crate::wires::Wiring;
use bank::interface::Bank;
use fddevs::part::{Counts, External, Mark, Output, Span};
use fddevs::refusal::{Layer, Refusal};
use std::test::Fail;

// One part with one phase, two inputs and one output. A bank that other crates' tests shared would have to be public.
#[derive(Clone, Copy)]
struct Gate;

impl Bank for Gate {
    ghost family = { λ _. record { count = 1; part = λ _. record { counts = record { phases = 1; inputs = 2; outputs = 1 }; start = 0; lifespan = λ _. Unlimited; next = λ _. 0; output = λ _. Silent; external = λ _ _. record { next = 0; mark = Keep } } } };

    ghost limits = { λ _. record {
      some = lit≤ tt;
      few = lit≤ tt;
      part = λ _ _. record {
        counts = record { some_phase = lit≤ tt; few_phases = lit≤ tt; few_inputs = lit≤ tt; few_outputs = lit≤ tt };
        start_exists = lit< tt;
        phase = λ _ _. record { short = tt; next_exists = lit< tt; output_exists = tt; external_exists = λ _ _. lit< tt };
      };
    } };

    fn part_count(&self) -> u8 {
        1
    }

    fn counts(&self, part: u8) -> Option<Counts> {
        if part == 0 {
            Some(Counts {
                phases: 1,
                inputs: 2,
                outputs: 1,
            })
        } else {
            None
        }
    }

    fn start(&self, part: u8) -> Option<u8> {
        if part == 0 { Some(0) } else { None }
    }

    fn lifespan(&self, part: u8, phase: u8) -> Option<Span> {
        if part == 0 && phase == 0 {
            Some(Span::Unlimited)
        } else {
            None
        }
    }

    fn next(&self, part: u8, phase: u8) -> Option<u8> {
        if part == 0 && phase == 0 {
            Some(0)
        } else {
            None
        }
    }

    fn output(&self, part: u8, phase: u8) -> Option<Output> {
        if part == 0 && phase == 0 {
            Some(Output::Silent)
        } else {
            None
        }
    }

    fn external(&self, part: u8, phase: u8, input: u8) -> Option<External> {
        if part == 0 && phase == 0 && input < 2 {
            Some(External {
                next: 0,
                mark: Mark::Keep,
            })
        } else {
            None
        }
    }
}

#[test]
fn looks_up(rt: HostRuntime) -> Result<(), Fail> {
    let Ok(wiring) = read(&Gate, &[1, 0, 10, 2, 0, 255, 0, 0, 0, 255, 1, 0, 1]) else {
        return Err(Fail::new("refused"));
    };
    assert_eq!(rt; wiring.outer_inputs(), 2);
    assert_eq!(rt; wiring.outer_outputs(), 0);
    assert_eq!(rt; wiring.wires().len(), 2);
    assert_eq!(rt; wiring.from_source(255, 1).len(), 1);
    assert_eq!(rt; wiring.input_at(255, 1, 0), Some(1));
    assert_eq!(rt; wiring.input_at(255, 2, 0), None);
    assert_eq!(rt; Wiring::none().input_at(255, 0, 0), None);
    Ok(())
}

fn refusal(file: &[u8]) -> Option<Refusal> {
    match read(&Gate, file) {
        Ok(_) => None,
        Err(refusal) => Some(refusal),
    }
}

#[test]
fn refuses_heads(rt: HostRuntime) {
    assert_eq!(rt;
        refusal(&[2, 0, 3, 33, 0]),
        Some(Refusal::NotWhole(Layer::Wiring))
    );
    assert_eq!(rt;
        refusal(&[2, 0, 3, 33, 0, 0]),
        Some(Refusal::NotWhole(Layer::Wiring))
    );
    assert_eq!(rt;
        refusal(&[2, 0, 2, 33, 0]),
        Some(Refusal::Version(Layer::Wiring))
    );
    assert_eq!(rt; refusal(&[1, 0, 2, 0, 33]), Some(Refusal::WiringCounts));
}

#[test]
fn refuses_wires(rt: HostRuntime) {
    assert_eq!(rt;
        refusal(&[1, 0, 10, 1, 0, 0, 0, 0, 0, 0, 0, 0, 0]),
        Some(Refusal::WireOrder(1))
    );
    assert_eq!(rt;
        refusal(&[1, 0, 10, 1, 0, 0, 0, 0, 0, 0, 0, 0, 1]),
        Some(Refusal::WireTwice(1))
    );
    assert_eq!(rt;
        refusal(&[1, 0, 10, 1, 1, 0, 0, 255, 0, 255, 0, 0, 2]),
        Some(Refusal::WireNames(1))
    );
    assert_eq!(rt;
        refusal(&[1, 0, 6, 1, 1, 0, 0, 0, 0]),
        Some(Refusal::WireNames(0))
    );
    assert_eq!(rt;
        refusal(&[1, 0, 6, 1, 1, 255, 0, 255, 0]),
        Some(Refusal::WireNames(0))
    );
}
