// Whether the steps from a row of a set stay in the set.
ghost use Rattle.std.specs.Prelude.{◌≡◌, ℕ, ◌<◌, slice_index, take};
ghost use Rattle.fddevs.specs.Scheme.{scheme};
ghost use Rattle.fddevs.specs.declared.scheme.Move.{Move as Step};
ghost use Rattle.stepping.specs.RowBytes.{cells_of};
ghost use Rattle.wiring.specs.Meaning.{wiring_of};
ghost use Rattle.fddevs.specs.Vetting.{all_below};
ghost use Rattle.proof_rules.specs.Judging.{rows_in, stays, all_stay, among};
ghost use Rattle.lookup.specs.Finding.{Rising};
ghost use Rattle.lookup.specs.Shape.{shape, shape_of};

use bank::interface::Bank;
use book::row::Row;
use fddevs::scheme::Move;
use lookup::finding::find;
use lookup::rows::Rows;
use stepping::known::know_row;
use stepping::steps::Scheme;

// Where the search of each kind of step last ended: the next one begins there.
#[derive(Drop)]
pub(crate) struct Hints {
    delay: usize,
    outer: [usize; 256],
    internal: [usize; 256],
}

impl Hints {
    pub(crate) fn new() -> Hints {
        Hints {
            delay: 0,
            outer: [0; 256],
            internal: [0; 256],
        }
    }
}

// The rows of a set that ascend, for the parts of a scheme.
#[derive(Drop)]
pub(crate) struct Members<'a, B: Bank> {
    pub(crate) scheme: Scheme<'a, B>,
    pub(crate) rows: Rows<'a>,
    ghost parts: { shape rows ≡ shape_of (B.Bank.family scheme.bank.now).count rows.body.now },
    ghost bytes: { (k : ℕ) → slice_index rows.body.now k < 256 },
    ghost rising: { Rising rows.width rows.body.now rows.count },
}

impl<B: Bank> Members<'_, B> {
    // Whether a record is one of the rows. The hint is where the last search of its kind ended, and is moved on.
    pub(crate) fn has(&self, row: &Row, hint: &mut usize) -> bool
        ensures { result ≡ among (rows_in (B.Bank.family self.now.scheme.bank.now).count self.now.rows.body.now) (take (B.Bank.family self.now.scheme.bank.now).count (cells_of row.now.bytes)) }
    {
        know_row(row);
        match find(&self.rows, row, *hint) {
            Some(place) => {
                *hint = place;
                true
            }
            None => false,
        }
    }

    // Whether a step is not allowed, or leads to one of the rows. It is what a set is judged by, for each step from each row:
    // called and not inlined, it is a tenth of the time.
    #[inline(always)]
    fn keeps(&self, row: &Row, a: Move, hint: &mut usize) -> bool
        ensures { result ≡ stays (scheme (B.Bank.family self.now.scheme.bank.now) (wiring_of self.now.scheme.wiring.now)) (rows_in (B.Bank.family self.now.scheme.bank.now).count self.now.rows.body.now) (take (B.Bank.family self.now.scheme.bank.now).count (cells_of row.now.bytes)) a }
    {
        if !self.scheme.allows(row, a) {
            return true;
        }
        know_row(row);
        let mut next = *row;
        self.scheme.step(a, &mut next);
        self.has(&next, hint)
    }

    // Whether the steps of a kind, as many as `count`, are not allowed or lead to one of the rows. A loop and not `all`: a
    // hint changes with each step.
    fn keeps_each<F: Fn(u8) -> Move>(
        &self,
        row: &Row,
        count: u8,
        step: F,
        hints: &mut [usize; 256],
    ) -> bool
        requires { F.IsAlwaysCallable step }
        ensures { (m : ℕ → Step) → ((x : ℕ) (a : Step) → F.post step x a → a ≡ m x) → result ≡ all_below (λ x. stays (scheme (B.Bank.family self.now.scheme.bank.now) (wiring_of self.now.scheme.wiring.now)) (rows_in (B.Bank.family self.now.scheme.bank.now).count self.now.rows.body.now) (take (B.Bank.family self.now.scheme.bank.now).count (cells_of row.now.bytes)) (m x)) count }
    {
        for x in 0..count {
            if !self.keeps(row, step(x), &mut hints[usize::from(x)]) {
                return false;
            }
        }
        true
    }

    // Whether every single step from the row leads to one of the rows.
    pub(crate) fn keeps_all(&self, row: &Row, hints: &mut Hints) -> bool
        ensures { result ≡ all_stay (scheme (B.Bank.family self.now.scheme.bank.now) (wiring_of self.now.scheme.wiring.now)) (rows_in (B.Bank.family self.now.scheme.bank.now).count self.now.rows.body.now) (take (B.Bank.family self.now.scheme.bank.now).count (cells_of row.now.bytes)) }
    {
        let inputs = self.scheme.wiring.outer_inputs();
        let parts = self.scheme.bank.part_count();
        if !self.keeps(row, Move::Delay(1), &mut hints.delay) {
            return false;
        }
        if !self.keeps_each(row, inputs, |x| Move::Outer(x), &mut hints.outer) {
            return false;
        }
        self.keeps_each(row, parts, |p| Move::Internal(p), &mut hints.internal)
    }
}
