// The step that leads from a row of a set to a row that the set does not have.
ghost use Rattle.std.specs.Prelude.{◌≡◌, ℕ, true, take};
ghost use Rattle.fddevs.specs.Scheme.{scheme};
ghost use Rattle.fddevs.specs.declared.scheme.Move.{Move as Step};
ghost use Rattle.stepping.specs.RowBytes.{cells_of};
ghost use Rattle.wiring.specs.Meaning.{wiring_of};
ghost use Rattle.judging.specs.Set.{IsSet};
ghost use Rattle.proof_rules.specs.Judging.{rows_in};
ghost use Rattle.proof_rules.specs.Rules.{single};
ghost use Rattle.reasons.specs.Leaving.{LeadsOut, LeavesBy, Leaves};

use bank::interface::Bank;
use book::row::Row;
use fddevs::scheme::Move;
use lookup::finding::find;
use lookup::rows::Rows;
use stepping::known::know_row;
use stepping::steps::Scheme;
use wiring::wires::Wiring;

// A step, and the row that it leads to.
#[derive(Clone, Copy)]
pub struct Departure {
    pub step: Move,
    pub to: Row,
}

// A row, and the rows that the steps from it are to lead to. What is promised holds where they are the rows of a set: the
// caller's rows need not be one, so that this is said in each clause and not of the type.
#[derive(Drop)]
struct Leaver<'a, B> {
    scheme: Scheme<'a, B>,
    rows: &'a Rows<'a>,
    row: &'a Row,
}

impl<B: Bank> Leaver<'_, B> {
    // The row that a step leads to, where the step is allowed and the row is none of the rows.
    fn led_out(&self, a: Move) -> Option<Row>
        ensures { IsSet (B.Bank.family self.now.scheme.bank.now) self.now.rows.now → LeadsOut (scheme (B.Bank.family self.now.scheme.bank.now) (wiring_of self.now.scheme.wiring.now)) (rows_in (B.Bank.family self.now.scheme.bank.now).count self.now.rows.now.body.now) (take (B.Bank.family self.now.scheme.bank.now).count (cells_of self.now.row.now.bytes)) (B.Bank.family self.now.scheme.bank.now).count a result }
    {
        know_row(self.row);
        if !self.scheme.allows(self.row, a) {
            return None;
        }
        let mut next = *self.row;
        self.scheme.step(a, &mut next);
        know_row(&next);
        match find(self.rows, &next, 0) {
            Some(_) => None,
            None => Some(next),
        }
    }

    // The first that leads out of the steps of a kind, as many as `count`. A loop and not `find_map`, whose closure would
    // join what `step` and `led_out` answer.
    fn first<F: Fn(u8) -> Move>(&self, count: u8, step: F) -> Option<Departure>
        requires { F.IsAlwaysCallable step }
        ensures { IsSet (B.Bank.family self.now.scheme.bank.now) self.now.rows.now → (m : ℕ → Step) → ((x : ℕ) (a : Step) → F.post step x a → a ≡ m x) → ((x : ℕ) → single (m x) ≡ true) → LeavesBy (scheme (B.Bank.family self.now.scheme.bank.now) (wiring_of self.now.scheme.wiring.now)) (rows_in (B.Bank.family self.now.scheme.bank.now).count self.now.rows.now.body.now) (take (B.Bank.family self.now.scheme.bank.now).count (cells_of self.now.row.now.bytes)) (B.Bank.family self.now.scheme.bank.now).count m count result }
    {
        for x in 0..count {
            let step = step(x);
            if let Some(to) = self.led_out(step) {
                return Some(Departure { step, to });
            }
        }
        None
    }
}

// A single step that leads from the row to a row which is none of the rows, where there is one. The rows must be those
// of the bank's parts and ascend: else the answer means nothing.
pub fn leaving<B: Bank>(bank: &B, wiring: &Wiring, rows: &Rows, row: &Row) -> Option<Departure>
    ensures { IsSet (B.family bank.now) rows.now → Leaves (scheme (B.family bank.now) (wiring_of wiring.now)) (rows_in (B.family bank.now).count rows.now.body.now) (take (B.family bank.now).count (cells_of row.now.bytes)) (B.family bank.now).count result }
{
    let leaver = Leaver {
        scheme: Scheme { bank, wiring },
        rows,
        row,
    };
    let step = Move::Delay(1);
    if let Some(to) = leaver.led_out(step) {
        return Some(Departure { step, to });
    }
    match leaver.first(wiring.outer_inputs(), |x| Move::Outer(x)) {
        Some(departure) => Some(departure),
        None => leaver.first(bank.part_count(), |p| Move::Internal(p)),
    }
}
