ghost use Rattle.std.specs.Prelude.{◌≡◌, [], length};
ghost use Rattle.std.specs.List.{slice_get};
ghost use Rattle.bars.specs.Meaning.{all_conditions, shown};
ghost use Rattle.bars.specs.Vetting.{vetting};
ghost use Rattle.wiring.specs.Meaning.{wiring_of};
ghost use Rattle.wiring.specs.Reading.{reading};
ghost use Rattle.history.specs.Held.{begun, answer_of, after_wire, after_bar, after_offer};
ghost use Rattle.history.specs.History.{wire_call, bar_call, offer_call};
ghost use Rattle.history.specs.Led.{Led};
ghost use Rattle.fddevs.specs.Vetting.{Tells};
ghost use Rattle.proof_rules.specs.Faults.{Fault, vetting_of};
ghost use Rattle.proof_rules.specs.Judging.{judgement};
ghost use Rattle.proof_rules.specs.Laws.{ByTheRules};
ghost use Rattle.examination.specs.Leads.{Leads, HoldsTheLaw};
ghost use Rattle.examination.specs.Meaning.{held};

use crate::examination::Examination;
use crate::state::State;
use bank::interface::Bank;
use bars::bar::Bar;
use bars::condition::Condition;
use fddevs::refusal::Refusal;
use history::verdict::Verdict;
use proof_rules::evidence::Evidence;
use wiring::wires::Wiring;

impl<B: Bank> Examination<B> {
    // No wires, no outer inputs or outputs, no bars, and open.
    pub fn new(bank: B) -> Self
        ensures state { held result ≡ begun }
        ensures bank { result.bank ≡ bank }
        ensures led { Led (B.Bank.family result.bank) [] (held result) }
    {
        Examination {
            bank,
            state: State::begin(),
        }
    }

    // Takes the wiring of a file in place of the one before, and keeps the bars. The verdict becomes open. That the bank
    // stays is said of this call and the next two, as it is what they promise.
    pub fn wire(&mut self, file: &[u8]) -> Result<(), Refusal>
        ensures answer { result ≡ answer_of (reading (B.Bank.family self.old.bank) file.now) }
        ensures state { held self.new ≡ after_wire (reading (B.Bank.family self.old.bank) file.now) (held self.old) }
        ensures bank { self.new.bank ≡ self.old.bank }
        ensures leads { Leads B.Bank.family self.old (wire_call file.now result) self.new }
    {
        self.state.take_wiring(&self.bank, file)
    }

    // Adds a bar at the end. A clear verdict becomes open; another stays.
    pub fn bar(&mut self, conditions: &[Condition]) -> Result<(), Refusal>
        ensures answer { result ≡ vetting (B.Bank.family self.old.bank) (held self.old).bars conditions.now }
        ensures state { held self.new ≡ after_bar (vetting (B.Bank.family self.old.bank) (held self.old).bars conditions.now) conditions.now (held self.old) }
        ensures bank { self.new.bank ≡ self.old.bank }
        ensures leads { Leads B.Bank.family self.old (bar_call conditions.now result) self.new }
    {
        self.state.take_bar(&self.bank, conditions)
    }

    // Takes a proof file. An accepted set makes the verdict clear, an accepted witness reached.
    pub fn offer(&mut self, file: &[u8]) -> Result<Evidence, Refusal>
        ensures answer { result ≡ judgement (B.Bank.family self.old.bank) (held self.old).wiring (held self.old).bars file.now }
        ensures exactly { ByTheRules (B.Bank.family self.old.bank) (held self.old).wiring (held self.old).bars file.now result }
        ensures tells { Tells (Fault (B.Bank.family self.old.bank) (held self.old).wiring (held self.old).bars file.now) (vetting_of result) }
        ensures state { held self.new ≡ after_offer (judgement (B.Bank.family self.old.bank) (held self.old).wiring (held self.old).bars file.now) (held self.old) }
        ensures bank { self.new.bank ≡ self.old.bank }
        ensures leads { Leads B.Bank.family self.old (offer_call file.now result) self.new }
    {
        self.state.take_proof(&self.bank, file)
    }

    // What the examination has shown. Where it reads clear, no run of its scheme enters a state that is barred now;
    // where it reads reached, some run does.
    pub fn verdict(&self) -> Verdict
        ensures reads { result ≡ (held self.now).verdict }
        ensures law { HoldsTheLaw B.Bank.family self.now result }
    {
        self.state.standing.verdict
    }

    pub fn bank(&self) -> &B
        ensures { result.now ≡ self.now.bank }
    {
        &self.bank
    }

    pub fn wiring(&self) -> &Wiring
        ensures { wiring_of result.now ≡ (held self.now).wiring }
    {
        &self.state.wiring
    }

    // The bars that stand, in the order in which they were taken.
    pub fn bars(&self) -> &[Bar]
        ensures { all_conditions result.now ≡ (held self.now).bars }
    {
        self.state.bars()
    }

    pub fn bar_count(&self) -> usize
        ensures { result ≡ length (held self.now).bars }
    {
        self.state.standing.bars
    }

    // The bar at a place, counted from 0.
    pub fn bar_at(&self, k: usize) -> Option<Bar>
        ensures { shown result ≡ slice_get (held self.now).bars k }
    {
        self.bars().get(k).copied()
    }
}
