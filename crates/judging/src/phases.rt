// The phases of a row's parts. A row is given beside its bank: many rows of one bank are made, loaded and stepped apart
// from it.
ghost use Rattle.std.specs.Prelude.{◌≡◌, ◌<◌, take, nat_lt};
ghost use Rattle.fddevs.specs.Scheme.{scheme};
ghost use Rattle.stepping.specs.RowBytes.{cells_of};
ghost use Rattle.stepping.specs.Stepping.{nth_cell};
ghost use Rattle.wiring.specs.Meaning.{no_wiring};
ghost use Rattle.proof_rules.specs.Judging.{phases_exist};

use bank::interface::Bank;
use book::row::Row;
use stepping::known::know_row;

// The phase of a part. As in `stepping`, that the part is below 16 is asked as it is.
pub(crate) fn phase(row: &Row, part: u8) -> u8
    requires { part < 16 }
    ensures { result ≡ (nth_cell (cells_of row.now.bytes) part).phase }
{
    row.bytes[3 * usize::from(part)]
}

// Whether a part has the phase that the row gives it.
fn exists<B: Bank>(bank: &B, row: &Row, part: u8) -> bool
    requires { part < (B.family bank.now).count }
    ensures { result ≡ nat_lt (nth_cell (cells_of row.now.bytes) part).phase ((B.family bank.now).part part).counts.phases }
{
    bank.has_phase(part, phase(row, part))
}

// Whether every part has the phase that the row gives it.
pub(crate) fn all_exist<B: Bank>(bank: &B, row: &Row) -> bool
    ensures { result ≡ phases_exist (scheme (B.family bank.now) no_wiring).parts (take (B.family bank.now).count (cells_of row.now.bytes)) }
{
    know_row(row);
    (0..bank.part_count()).all(|part| exists(bank, row, part))
}
