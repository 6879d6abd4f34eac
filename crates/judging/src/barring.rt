// Whether a bar holds in a row. A row is given beside its bank: many rows of one bank are made, loaded and stepped apart
// from it.
ghost use Rattle.std.specs.Prelude.{◌≡◌, take};
ghost use Rattle.bars.specs.Bars.{is_in, holds, barred};
ghost use Rattle.bars.specs.Meaning.{all_conditions};
ghost use Rattle.stepping.specs.RowBytes.{cells_of};
ghost use Rattle.proof_rules.specs.Rules.{row_phases};

use crate::phases::phase;
use bank::interface::Bank;
use bars::bar::Bar;
use bars::condition::Condition;
use book::row::Row;
use stepping::known::know_row;

// Whether the row's part is in the phase.
fn is_in<B: Bank>(bank: &B, row: &Row, condition: Condition) -> bool
    ensures { result ≡ is_in (row_phases (take (B.family bank.now).count (cells_of row.now.bytes))) condition.part condition.phase }
{
    know_row(row);
    condition.part < bank.part_count() && phase(row, condition.part) == condition.phase
}

// Whether every condition of a bar holds.
fn all_hold<B: Bank>(bank: &B, row: &Row, conditions: &[Condition]) -> bool
    ensures { result ≡ holds conditions.now (row_phases (take (B.family bank.now).count (cells_of row.now.bytes))) }
{
    conditions
        .iter()
        .all(|condition| is_in(bank, row, *condition))
}

// Whether some bar holds in the row.
pub fn is_barred<B: Bank>(bank: &B, bars: &[Bar], row: &Row) -> bool
    ensures { result ≡ barred (all_conditions bars.now) (row_phases (take (B.family bank.now).count (cells_of row.now.bytes))) }
{
    bars.iter().any(|bar| all_hold(bank, row, bar.conditions()))
}
