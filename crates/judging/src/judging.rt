// A proof file judged by the wiring and the bars that stand.
ghost use Rattle.std.specs.Prelude.{◌≡◌};
ghost use Rattle.fddevs.specs.Scheme.{scheme};
ghost use Rattle.bars.specs.Meaning.{all_conditions};
ghost use Rattle.wiring.specs.Meaning.{wiring_of};
ghost use Rattle.proof_rules.specs.Judging.{is_rows, is_steps, set_vetting, witness_vetting, judged_as, judgement};
ghost use Rattle.fddevs.specs.Vetting.{Tells};
ghost use Rattle.proof_rules.specs.Faults.{Fault, vetting_of};
ghost use Rattle.proof_rules.specs.Laws.{ByTheRules};

use bank::interface::Bank;
use bars::bar::Bar;
use fddevs::refusal::{Layer, Refusal};
use proof_rules::evidence::Evidence;
use set_file::layout::{BODY_LIMIT, Head, VERSION, body_fits, width};
use stepping::steps::Scheme;
use wiring::wires::Wiring;

// Whether a body has rows of so many parts, and only whole ones.
fn is_rows<B: Bank>(bank: &B, body: &[u8]) -> bool
    ensures { result ≡ is_rows (B.family bank.now).count body.now }
{
    body_fits(body.len()) && body.len() % width(bank.part_count()) == 0
}

// Whether a body has only whole steps.
fn is_steps(body: &[u8]) -> bool
    ensures { result ≡ is_steps body.now }
{
    body.len() <= BODY_LIMIT && body.len() % 3 == 0
}

// The scheme and the bars that a proof file is judged by.
#[derive(Drop)]
pub(crate) struct Examined<'a, B> {
    pub(crate) scheme: Scheme<'a, B>,
    pub(crate) bars: &'a [Bar],
}

impl<B: Bank> Examined<'_, B> {
    fn vet_set(&self, body: &[u8]) -> Result<(), Refusal>
        ensures { result ≡ set_vetting (scheme (B.Bank.family self.now.scheme.bank.now) (wiring_of self.now.scheme.wiring.now)) (all_conditions self.now.bars.now) (B.Bank.family self.now.scheme.bank.now).count body.now }
    {
        if !is_rows(self.scheme.bank, body) {
            return Err(Refusal::Body(Layer::Proof));
        }
        self.vet_rows(body)
    }

    fn vet_witness(&self, body: &[u8]) -> Result<(), Refusal>
        ensures { result ≡ witness_vetting (scheme (B.Bank.family self.now.scheme.bank.now) (wiring_of self.now.scheme.wiring.now)) (all_conditions self.now.bars.now) body.now }
    {
        if !is_steps(body) {
            return Err(Refusal::Body(Layer::Proof));
        }
        self.walk(body)
    }

    // Judges a body by its kind.
    fn judge_body(&self, kind: u8, body: &[u8]) -> Result<Evidence, Refusal>
        ensures { result ≡ judged_as kind (set_vetting (scheme (B.Bank.family self.now.scheme.bank.now) (wiring_of self.now.scheme.wiring.now)) (all_conditions self.now.bars.now) (B.Bank.family self.now.scheme.bank.now).count body.now) (witness_vetting (scheme (B.Bank.family self.now.scheme.bank.now) (wiring_of self.now.scheme.wiring.now)) (all_conditions self.now.bars.now) body.now) }
    {
        let Ok(kind) = Evidence::try_from(kind) else {
            return Err(Refusal::Kind(Layer::Proof));
        };
        match kind {
            Evidence::Set => self.vet_set(body)?,
            Evidence::Witness => self.vet_witness(body)?,
        }
        Ok(kind)
    }

    // Judges a proof file: what it is, or the refusal with the smallest number that holds.
    fn judge_file(&self, file: &[u8]) -> Result<Evidence, Refusal>
        ensures { result ≡ judgement (B.Bank.family self.now.scheme.bank.now) (wiring_of self.now.scheme.wiring.now) (all_conditions self.now.bars.now) file.now }
    {
        let Some(head) = Head::read(file) else {
            return Err(Refusal::NotWhole(Layer::Proof));
        };
        if head.version != VERSION {
            return Err(Refusal::Version(Layer::Proof));
        }
        self.judge_body(head.kind, head.body)
    }
}

// Judges a proof file by the wiring and the bars: what it is taken for, or the refusal with the smallest number that
// holds, at the first place.
pub fn judge<B: Bank>(
    bank: &B,
    wiring: &Wiring,
    bars: &[Bar],
    file: &[u8],
) -> Result<Evidence, Refusal>
    ensures answer { result ≡ judgement (B.family bank.now) (wiring_of wiring.now) (all_conditions bars.now) file.now }
    ensures exactly { ByTheRules (B.family bank.now) (wiring_of wiring.now) (all_conditions bars.now) file.now result }
    ensures tells { Tells (Fault (B.family bank.now) (wiring_of wiring.now) (all_conditions bars.now) file.now) (vetting_of result) }
{
    let examined = Examined {
        scheme: Scheme { bank, wiring },
        bars,
    };
    examined.judge_file(file)
}
