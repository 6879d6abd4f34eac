ghost use Rattle.std.specs.Prelude.{◌≡◌};
ghost use Rattle.fddevs.specs.Machine.{Family, WithinLimits, counts_at, start_at, lifespan_at, next_at, output_at, external_at, has_phase};

use fddevs::part::{Counts, External, Output, Span};

// A bank: an interface to 1 to 16 parts, numbered from 0. It means a family of parts, and each answer is the one in
// its meaning; a question beyond the counts is answered by none. Code above banks is proved against the family alone.
pub trait Bank: Drop {
    ghost family: { Self → Family };

    // How many parts there are.
    fn part_count(&self) -> u8
        ensures { result ≡ (family self.now).count };

    // How many phases, inputs and outputs a part has.
    fn counts(&self, part: u8) -> Option<Counts>
        ensures { result ≡ counts_at (family self.now) part };

    // The phase in which a part begins.
    fn start(&self, part: u8) -> Option<u8>
        ensures { result ≡ start_at (family self.now) part };

    // How long a phase lasts.
    fn lifespan(&self, part: u8, phase: u8) -> Option<Span>
        ensures { result ≡ lifespan_at (family self.now) part phase };

    // The phase that a phase's internal step leads to.
    fn next(&self, part: u8, phase: u8) -> Option<u8>
        ensures { result ≡ next_at (family self.now) part phase };

    // What a phase's internal step sends.
    fn output(&self, part: u8, phase: u8) -> Option<Output>
        ensures { result ≡ output_at (family self.now) part phase };

    // Where an input leads in a phase, and its mark.
    fn external(&self, part: u8, phase: u8, input: u8) -> Option<External>
        ensures { result ≡ external_at (family self.now) part phase input };

    ghost limits: { (b : Self) → WithinLimits (family b) };

    // Whether a part has a phase.
    final fn has_phase(&self, part: u8, phase: u8) -> bool
        ensures { result ≡ has_phase (family self.now) part phase }
    {
        self.counts(part)
            .is_some_and(|counts| phase < counts.phases)
    }
}
