ghost use Rattle.std.specs.Prelude.{◌≡◌, ◌<◌, ◌≤◌, length, Ok};
ghost use Rattle.bars.specs.Meaning.{all_conditions};
ghost use Rattle.bars.specs.Vetting.{vetting};
ghost use Rattle.wiring.specs.Meaning.{wiring_of};
ghost use Rattle.wiring.specs.Reading.{reading};
ghost use Rattle.history.specs.Held.{begun, answer_of, after_wire, after_bar, after_offer};
ghost use Rattle.proof_rules.specs.Judging.{judgement};
ghost use Rattle.examination.specs.Meaning.{held_in};

use crate::standing::Standing;
use crate::state::State;
use bank::interface::Bank;
use bars::bar::Bar;
use bars::bars::Bars;
use bars::condition::Condition;
use bars::vetting::vet;
use fddevs::refusal::Refusal;
use history::verdict::{Event, Verdict};
use judging::judging::judge;
use proof_rules::evidence::Evidence;
use wiring::reading::read;
use wiring::wires::Wiring;

impl State {
    // No wires, no outer inputs or outputs, no bars, and open.
    pub(crate) fn begin() -> State
        ensures { held_in result ≡ begun }
    {
        State {
            wiring: Wiring::none(),
            bars: Bars::empty(),
            standing: Standing {
                bars: 0,
                verdict: Verdict::Open,
            },
        }
    }

    // The bars that stand.
    pub(crate) fn bars(&self) -> &[Bar]
        ensures { all_conditions result.now ≡ (held_in self.now).bars }
    {
        self.bars.standing(self.standing.bars)
    }

    fn lay(&mut self, wiring: Wiring)
        ensures { held_in self.new ≡ after_wire (Ok (wiring_of wiring)) (held_in self.old) }
    {
        self.wiring = wiring;
        self.standing.note(Event::Wired);
    }

    fn add(&mut self, conditions: &[Condition])
        requires room { self.old.standing.bars < 16 }
        requires few { length conditions.now ≤ 4 }
        ensures { held_in self.new ≡ after_bar (Ok tt) conditions.now (held_in self.old) }
    {
        self.bars.put(self.standing.bars, conditions);
        self.standing.add_bar();
    }

    fn settle(&mut self, shown: Evidence)
        ensures { held_in self.new ≡ after_offer (Ok shown) (held_in self.old) }
    {
        self.standing.note(Event::Accepted(shown));
    }

    pub(crate) fn take_wiring<B: Bank>(&mut self, bank: &B, file: &[u8]) -> Result<(), Refusal>
        ensures answer { result ≡ answer_of (reading (B.Bank.family bank.now) file.now) }
        ensures state { held_in self.new ≡ after_wire (reading (B.Bank.family bank.now) file.now) (held_in self.old) }
    {
        let wiring = read(bank, file)?;
        self.lay(wiring);
        Ok(())
    }

    pub(crate) fn take_bar<B: Bank>(
        &mut self,
        bank: &B,
        conditions: &[Condition],
    ) -> Result<(), Refusal>
        ensures answer { result ≡ vetting (B.Bank.family bank.now) (held_in self.old).bars conditions.now }
        ensures state { held_in self.new ≡ after_bar (vetting (B.Bank.family bank.now) (held_in self.old).bars conditions.now) conditions.now (held_in self.old) }
    {
        vet(bank, self.bars(), conditions)?;
        self.add(conditions);
        Ok(())
    }

    fn judged<B: Bank>(&self, bank: &B, file: &[u8]) -> Result<Evidence, Refusal>
        ensures { result ≡ judgement (B.Bank.family bank.now) (held_in self.now).wiring (held_in self.now).bars file.now }
    {
        judge(bank, &self.wiring, self.bars(), file)
    }

    pub(crate) fn take_proof<B: Bank>(&mut self, bank: &B, file: &[u8]) -> Result<Evidence, Refusal>
        ensures answer { result ≡ judgement (B.Bank.family bank.now) (held_in self.old).wiring (held_in self.old).bars file.now }
        ensures state { held_in self.new ≡ after_offer (judgement (B.Bank.family bank.now) (held_in self.old).wiring (held_in self.old).bars file.now) (held_in self.old) }
    {
        let shown = self.judged(bank, file)?;
        self.settle(shown);
        Ok(shown)
    }
}
