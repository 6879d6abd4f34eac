ghost use Rattle.std.specs.Prelude.{◌≡◌, ◌+◌, ◌<◌};
ghost use Rattle.history.specs.Verdicts.{verdict_after};
ghost use Rattle.history.specs.declared.verdict.Event.TheVariants.{BarAdded};

use crate::standing::Standing;
use history::verdict::{Event, Verdict};
use proof_rules::evidence::Evidence;

impl Standing {
    // What an event makes of the verdict.
    pub(crate) fn note(&mut self, event: Event)
        ensures verdict { self.new.verdict ≡ verdict_after self.old.verdict event }
        ensures bars { self.new.bars ≡ self.old.bars }
    {
        match (self.verdict, event) {
            (_, Event::Wired) => self.verdict = Verdict::Open,
            (Verdict::Clear, Event::BarAdded) => self.verdict = Verdict::Open,
            (Verdict::Open | Verdict::Reached, Event::BarAdded) => {}
            (_, Event::Accepted(Evidence::Set)) => self.verdict = Verdict::Clear,
            (_, Event::Accepted(Evidence::Witness)) => self.verdict = Verdict::Reached,
        }
    }

    // One bar more stands.
    pub(crate) fn add_bar(&mut self)
        requires { self.old.bars < 16 }
        ensures verdict { self.new.verdict ≡ verdict_after self.old.verdict BarAdded }
        ensures bars { self.new.bars ≡ self.old.bars + 1 }
    {
        self.note(Event::BarAdded);
        self.bars += 1;
    }
}
