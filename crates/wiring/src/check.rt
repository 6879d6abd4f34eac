// The tests that a wiring file has to pass.
ghost use Rattle.std.specs.Prelude.{◌≡◌, ◌<◌, true, length};
ghost use Rattle.wiring.specs.File.{wire_count, is_whole};
ghost use Rattle.wiring.specs.Wires.{same_start, in_order, is_apart, ascends, nth};
ghost use Rattle.wiring.specs.Reading.{source_exists, target_exists, has_ends, keeps, breach, kept, head_vetting, wires_vetting, draft, Ready};

use crate::rule::Rule;
use crate::wires::OuterCounts;
use bank::interface::Bank;
use fddevs::refusal::{Layer, Refusal};
use fddevs::scheme::{OUTSIDE, Wire};

fn is_whole(file: &[u8]) -> bool
    ensures { result ≡ is_whole file.now }
{
    if file.len() < 5 {
        return false;
    }
    let rest = usize::from(u16::from_be_bytes([file[1], file[2]]));
    file.len() == 3 + rest && (file.len() - 5) % 4 == 0
}

pub(crate) fn wire_count(file: &[u8]) -> usize
    ensures { result ≡ wire_count file.now }
{
    file.len().saturating_sub(5) / 4
}

pub(crate) fn check_head(file: &[u8]) -> Result<(), Refusal>
    ensures { result ≡ head_vetting file.now }
{
    if !is_whole(file) {
        return Err(Refusal::NotWhole(Layer::Wiring));
    }
    if file[0] != 1 {
        return Err(Refusal::Version(Layer::Wiring));
    }
    if file[3] <= 32 && file[4] <= 32 && wire_count(file) <= 256 {
        Ok(())
    } else {
        Err(Refusal::WiringCounts)
    }
}

fn is_same_start(a: Wire, b: Wire) -> bool
    ensures { result ≡ same_start a b }
{
    (a.source, a.output, a.target) == (b.source, b.output, b.target)
}

// The two ends differ in every name: one function of both would need closures for the counts that it asks.
fn source_exists<B: Bank>(bank: &B, outer_inputs: u8, wire: Wire) -> bool
    ensures { result ≡ source_exists (B.Bank.family bank.now) outer_inputs wire }
{
    match wire.source {
        OUTSIDE => wire.output < outer_inputs,
        part => bank
            .counts(part)
            .is_some_and(|counts| wire.output < counts.outputs),
    }
}

fn target_exists<B: Bank>(bank: &B, outer_outputs: u8, wire: Wire) -> bool
    ensures { result ≡ target_exists (B.Bank.family bank.now) outer_outputs wire }
{
    match wire.target {
        OUTSIDE => wire.input < outer_outputs,
        part => bank
            .counts(part)
            .is_some_and(|counts| wire.input < counts.inputs),
    }
}

impl Rule {
    fn refusal(self, wire: usize) -> Refusal
        ensures { result ≡ breach self wire }
    {
        match self {
            Rule::Order => Refusal::WireOrder(wire),
            Rule::Apart => Refusal::WireTwice(wire),
            Rule::Names => Refusal::WireNames(wire),
        }
    }
}

// The wires of a file that is tested for a bank, and how many outer inputs and outputs it has.
#[derive(Drop)]
pub(crate) struct Draft<'a, B> {
    pub(crate) bank: &'a B,
    pub(crate) outer: OuterCounts,
    pub(crate) wires: &'a [Wire],
}

// A test of wire k asks that there is one: a type for such numbers would be made at each call from the same fact.
impl<B: Bank> Draft<'_, B> {
    // Wires are asked for their order by `cmp`, which takes less time than the derived `<`.
    fn is_in_order(&self, k: usize) -> bool
        requires { k < length self.now.wires.now }
        ensures { result ≡ in_order self.now.wires.now k }
    {
        k == 0 || self.wires[k - 1].cmp(&self.wires[k]).is_lt()
    }

    // In ascending wires, those with one start stand side by side.
    fn is_apart(&self, k: usize) -> bool
        requires within { k < length self.now.wires.now }
        requires order { ascends self.now.wires.now ≡ true }
        ensures { result ≡ is_apart self.now.wires.now k }
    {
        k == 0 || !is_same_start(self.wires[k - 1], self.wires[k])
    }

    fn has_ends(&self, k: usize) -> bool
        requires { k < length self.now.wires.now }
        ensures { result ≡ has_ends (B.Bank.family self.now.bank.now) (draft self.now.outer self.now.wires.now) (nth self.now.wires.now k) }
    {
        let wire = self.wires[k];
        wire.source != wire.target
            && source_exists(self.bank, self.outer.inputs, wire)
            && target_exists(self.bank, self.outer.outputs, wire)
    }

    fn keeps(&self, rule: Rule, k: usize) -> bool
        requires within { k < length self.now.wires.now }
        requires ready { Ready rule self.now.wires.now }
        ensures { result ≡ keeps rule (B.Bank.family self.now.bank.now) (draft self.now.outer self.now.wires.now) k }
    {
        match rule {
            Rule::Order => self.is_in_order(k),
            Rule::Apart => self.is_apart(k),
            Rule::Names => self.has_ends(k),
        }
    }

    fn check_rule(&self, rule: Rule) -> Result<(), Refusal>
        requires { Ready rule self.now.wires.now }
        ensures { result ≡ kept rule (B.Bank.family self.now.bank.now) (draft self.now.outer self.now.wires.now) }
    {
        match (0..self.wires.len()).find(|k| !self.keeps(rule, *k)) {
            None => Ok(()),
            Some(wire) => Err(rule.refusal(wire)),
        }
    }

    // The rules in the order of their numbers.
    pub(crate) fn check(&self) -> Result<(), Refusal>
        ensures { result ≡ wires_vetting (B.Bank.family self.now.bank.now) (draft self.now.outer self.now.wires.now) }
    {
        self.check_rule(Rule::Order)?;
        self.check_rule(Rule::Apart)?;
        self.check_rule(Rule::Names)
    }
}
