ghost use Rattle.book.specs.Records.{stimulus_order};
ghost use Rattle.book.specs.Orders.{stimulus_total};

use crate::record::Record;
use std::cmp::Ordering;

// A stimulus of a playback: at this tick, by its serial number, this outer input comes.
// Stimuli are ordered by tick, then serial number, then outer input.
#[derive(Clone, Copy, PartialEq, Eq, PartialOrd, Ord, Debug)]
pub struct Stimulus {
    pub tick: u32,
    pub serial: u32,
    pub input: u8,
}

impl Record for Stimulus {
    ghost order = { stimulus_order };

    ghost total = { stimulus_total };

    fn compare(&self, other: &Stimulus) -> Ordering {
        self.cmp(other)
    }
}
