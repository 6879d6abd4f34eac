// Whether a bar is one to take.
ghost use Rattle.std.specs.Prelude.{◌≡◌, ◌<◌, ◌↔◌, length, Ok, nat_lt};
ghost use Rattle.fddevs.specs.Vetting.{all_below, unless, Tells};
ghost use Rattle.fddevs.specs.declared.refusal.Refusal.TheVariants.{BarsFull};
ghost use Rattle.bars.specs.Bars.{stands};
ghost use Rattle.bars.specs.Meaning.{all_conditions};
ghost use Rattle.bars.specs.Rules.{KeepsBarRules, Fault};
ghost use Rattle.bars.specs.Vetting.{in_order, fits, well_formed, vetting};

use crate::bar::Bar;
use crate::condition::Condition;
use bank::interface::Bank;
use fddevs::refusal::Refusal;

fn is_in_order(conditions: &[Condition], k: usize) -> bool
    requires { k < length conditions.now }
    ensures { result ≡ in_order conditions.now k }
{
    k == 0 || conditions[k - 1].part < conditions[k].part
}

fn is_fit<B: Bank>(bank: &B, conditions: &[Condition], k: usize) -> bool
    requires { k < length conditions.now }
    ensures { result ≡ fits (B.Bank.family bank.now) conditions.now k }
{
    let condition = conditions[k];
    is_in_order(conditions, k) && bank.has_phase(condition.part, condition.phase)
}

fn are_fit<B: Bank>(bank: &B, conditions: &[Condition]) -> bool
    ensures { result ≡ all_below (fits (B.Bank.family bank.now) conditions.now) (length conditions.now) }
{
    (0..conditions.len()).all(|k| is_fit(bank, conditions, k))
}

fn is_well_formed<B: Bank>(bank: &B, conditions: &[Condition]) -> bool
    ensures { result ≡ well_formed (B.Bank.family bank.now) conditions.now }
{
    !conditions.is_empty() && conditions.len() <= 4 && are_fit(bank, conditions)
}

fn is_standing(standing: &[Bar], conditions: &[Condition]) -> bool
    ensures { result ≡ stands (all_conditions standing.now) conditions.now }
{
    standing.iter().any(|bar| bar.has_conditions(conditions))
}

fn check_room(standing: &[Bar]) -> Result<(), Refusal>
    ensures { result ≡ unless (nat_lt (length (all_conditions standing.now)) 16) BarsFull }
{
    if standing.len() < 16 {
        Ok(())
    } else {
        Err(Refusal::BarsFull)
    }
}

// The refusals in the order of their numbers.
fn check_all<B: Bank>(bank: &B, standing: &[Bar], conditions: &[Condition]) -> Result<(), Refusal>
    ensures { result ≡ vetting (B.Bank.family bank.now) (all_conditions standing.now) conditions.now }
{
    if !is_well_formed(bank, conditions) {
        return Err(Refusal::BarForm);
    }
    if is_standing(standing, conditions) {
        return Err(Refusal::BarStands);
    }
    check_room(standing)
}

// Whether a bank and the bars that stand let the bar be taken.
pub fn vet<B: Bank>(bank: &B, standing: &[Bar], conditions: &[Condition]) -> Result<(), Refusal>
    ensures answer { result ≡ vetting (B.Bank.family bank.now) (all_conditions standing.now) conditions.now }
    ensures exactly { (result ≡ Ok tt) ↔ KeepsBarRules (B.Bank.family bank.now) (all_conditions standing.now) conditions.now }
    ensures tells { Tells (Fault (B.Bank.family bank.now) (all_conditions standing.now) conditions.now) result }
{
    check_all(bank, standing, conditions)
}
