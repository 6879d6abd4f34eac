// The first bar that holds in a row. As everywhere, the row is given beside its bank.
ghost use Rattle.std.specs.Prelude.{◌≡◌, length, take};
ghost use Rattle.fddevs.specs.Vetting.{seek};
ghost use Rattle.bars.specs.Bars.{holds};
ghost use Rattle.bars.specs.Meaning.{conditions_of, all_conditions};
ghost use Rattle.stepping.specs.RowBytes.{cells_of};
ghost use Rattle.proof_rules.specs.Rules.{row_phases};
ghost use Rattle.reasons.specs.Holding.{holds_not};

use bank::interface::Bank;
use bars::bar::Bar;
use book::row::Row;
use judging::barring::is_barred;

// Whether every condition of the bar holds in the row.
fn is_held<B: Bank>(bank: &B, bar: &Bar, row: &Row) -> bool
    ensures { result ≡ holds (conditions_of bar.now) (row_phases (take (B.family bank.now).count (cells_of row.now.bytes))) }
{
    is_barred(bank, &[*bar], row)
}

// The first bar of which every condition holds in the row.
pub fn holding<B: Bank>(bank: &B, bars: &[Bar], row: &Row) -> Option<usize>
    ensures { result ≡ seek (holds_not (all_conditions bars.now) (row_phases (take (B.family bank.now).count (cells_of row.now.bytes)))) 0 (length bars.now) }
{
    bars.iter().position(|bar| is_held(bank, bar, row))
}
