// A set, row by row: one pass for each number, in the order of the numbers.
ghost use Rattle.std.specs.Prelude.{◌≡◌, ◌<◌, take};
ghost use Rattle.fddevs.specs.Scheme.{scheme};
ghost use Rattle.bars.specs.Bars.{barred};
ghost use Rattle.bars.specs.Meaning.{all_conditions};
ghost use Rattle.lookup.specs.Shape.{shape, shape_of};
ghost use Rattle.stepping.specs.RowBytes.{cells_of};
ghost use Rattle.wiring.specs.Meaning.{wiring_of, no_wiring};
ghost use Rattle.proof_rules.specs.Rules.{row_phases};
ghost use Rattle.proof_rules.specs.Judging.{row_at, phases_exist, phases_vetting, order_vetting, start_vetting, bars_vetting, steps_vetting, rows_vetting};

use crate::barring::is_barred;
use crate::closing::{Hints, Members};
use crate::judging::Examined;
use crate::phases::all_exist;
use bank::interface::Bank;
use bars::bar::Bar;
use book::row::Row;
use fddevs::refusal::{Layer, Refusal};
use lookup::rows::Rows;
use stepping::steps::{Scheme, start};

// The rows of a set that is judged.
#[derive(Drop)]
struct Candidate<'a, B: Bank> {
    bank: &'a B,
    rows: Rows<'a>,
    ghost parts: { shape rows ≡ shape_of (B.Bank.family bank.now).count rows.body.now },
}

// A test of row k asks that there is one: a type for such numbers would be made at each call from the same fact.
impl<B: Bank> Candidate<'_, B> {
    fn nth(&self, k: usize) -> Row
        requires { k < self.now.rows.count }
        ensures { take (B.Bank.family self.now.bank.now).count (cells_of result.bytes) ≡ row_at (B.Bank.family self.now.bank.now).count self.now.rows.body.now k }
    {
        let mut row = Row::ZERO;
        self.rows.load(k, &mut row);
        row
    }

    fn has_phases(&self, k: usize) -> bool
        requires { k < self.now.rows.count }
        ensures { result ≡ phases_exist (scheme (B.Bank.family self.now.bank.now) no_wiring).parts (row_at (B.Bank.family self.now.bank.now).count self.now.rows.body.now k) }
    {
        all_exist(self.bank, &self.nth(k))
    }

    // Whether the parts have the phases of every row. That a vetting passes where its search finds nothing is said by a `match`
    // here and in the other vettings: a function for it would take a closure.
    fn vet_phases(&self) -> Result<(), Refusal>
        ensures { result ≡ phases_vetting (scheme (B.Bank.family self.now.bank.now) no_wiring).parts (B.Bank.family self.now.bank.now).count self.now.rows.body.now }
    {
        match (0..self.rows.count()).find(|k| !self.has_phases(*k)) {
            None => Ok(()),
            Some(k) => Err(Refusal::RowPhase(k)),
        }
    }

    // Whether every row is above the one before it.
    fn vet_order(&self) -> Result<(), Refusal>
        ensures { result ≡ order_vetting (B.Bank.family self.now.bank.now).count self.now.rows.body.now }
    {
        match self.rows.first_fall() {
            None => Ok(()),
            Some(k) => Err(Refusal::RowOrder(Layer::Proof, k)),
        }
    }

    fn is_barred(&self, bars: &[Bar], k: usize) -> bool
        requires { k < self.now.rows.count }
        ensures { result ≡ barred (all_conditions bars.now) (row_phases (row_at (B.Bank.family self.now.bank.now).count self.now.rows.body.now k)) }
    {
        is_barred(self.bank, bars, &self.nth(k))
    }

    // Whether no bar holds in any row.
    fn vet_bars(&self, bars: &[Bar]) -> Result<(), Refusal>
        ensures { result ≡ bars_vetting (all_conditions bars.now) (B.Bank.family self.now.bank.now).count self.now.rows.body.now }
    {
        match (0..self.rows.count()).find(|k| self.is_barred(bars, *k)) {
            None => Ok(()),
            Some(k) => Err(Refusal::RowBarred(k)),
        }
    }
}

impl<B: Bank> Members<'_, B> {
    // Whether the row of the start is one of the rows.
    fn vet_start(&self) -> Result<(), Refusal>
        ensures { result ≡ start_vetting (scheme (B.Bank.family self.now.scheme.bank.now) no_wiring) (B.Bank.family self.now.scheme.bank.now).count self.now.rows.body.now }
    {
        let first = start(self.scheme.bank);
        if self.has(&first, &mut 0) {
            Ok(())
        } else {
            Err(Refusal::StartAbsent)
        }
    }

    // Whether every single step from every row leads to one of the rows. A loop and not `find`: the record that is loaded
    // and the hints change with each row.
    fn vet_steps(&self) -> Result<(), Refusal>
        ensures { result ≡ steps_vetting (scheme (B.Bank.family self.now.scheme.bank.now) (wiring_of self.now.scheme.wiring.now)) (B.Bank.family self.now.scheme.bank.now).count self.now.rows.body.now }
    {
        let mut from = Row::ZERO;
        let mut hints = Hints::new();
        for k in 0..self.rows.count() {
            self.rows.load(k, &mut from);
            if !self.keeps_all(&from, &mut hints) {
                return Err(Refusal::RowLeaves(k));
            }
        }
        Ok(())
    }
}

impl<B: Bank> Examined<'_, B> {
    // The passes in the order of their numbers.
    pub(crate) fn vet_rows(&self, body: &[u8]) -> Result<(), Refusal>
        ensures { result ≡ rows_vetting (scheme (B.Bank.family self.now.scheme.bank.now) (wiring_of self.now.scheme.wiring.now)) (all_conditions self.now.bars.now) (B.Bank.family self.now.scheme.bank.now).count body.now }
    {
        let Scheme { bank, wiring } = self.scheme;
        let rows = Rows::new(bank.part_count(), body);
        let candidate = Candidate { bank, rows };
        candidate.vet_phases()?;
        candidate.vet_order()?;
        let members = Members {
            scheme: Scheme { bank, wiring },
            rows,
        };
        members.vet_start()?;
        candidate.vet_bars(self.bars)?;
        members.vet_steps()
    }
}
