// A witness, step by step.
ghost use Rattle.std.specs.Prelude.{◌≡◌};
ghost use Rattle.fddevs.specs.Rows.{row};
ghost use Rattle.fddevs.specs.Scheme.{scheme, start};
ghost use Rattle.bars.specs.Meaning.{all_conditions};
ghost use Rattle.wiring.specs.Meaning.{wiring_of};
ghost use Rattle.proof_rules.specs.Judging.{walk};

use crate::barring::is_barred;
use crate::judging::Examined;
use bank::interface::Bank;
use fddevs::refusal::Refusal;
use proof_rules::steps::move_of;
use stepping::steps::start;

impl<B: Bank> Examined<'_, B> {
    // Takes the steps from the start. Each must be allowed, and the last must lead to a barred row. By a rule of the project,
    // a step is split from the rest by a slice pattern, so the steps that were taken are counted beside it.
    pub(crate) fn walk(&self, body: &[u8]) -> Result<(), Refusal>
        ensures { result ≡ walk (scheme (B.Bank.family self.now.scheme.bank.now) (wiring_of self.now.scheme.wiring.now)) (all_conditions self.now.bars.now) 0 (row (start (scheme (B.Bank.family self.now.scheme.bank.now) (wiring_of self.now.scheme.wiring.now)))) body.now }
    {
        let mut row = start(self.scheme.bank);
        let mut left = body;
        let mut taken = 0;
        while let [kind, high, low, rest @ ..] = left {
            let Some(a) = move_of(*kind, *high, *low) else {
                return Err(Refusal::StepNotAllowed(taken));
            };
            if !self.scheme.allows(&row, a) {
                return Err(Refusal::StepNotAllowed(taken));
            }
            self.scheme.step(a, &mut row);
            left = rest;
            taken += 1;
        }
        if !left.is_empty() {
            return Err(Refusal::StepNotAllowed(taken));
        }
        if !is_barred(self.scheme.bank, self.bars, &row) {
            return Err(Refusal::EndNotBarred);
        }
        Ok(())
    }
}
