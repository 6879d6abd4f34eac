// The first part of a row that has a phase which it does not have, or that does not last. As everywhere, the row is given
// beside its bank.
ghost use Rattle.std.specs.Prelude.{◌≡◌, ◌<◌};
ghost use Rattle.fddevs.specs.Vetting.{seek};
ghost use Rattle.stepping.specs.RowBytes.{cells_of};
ghost use Rattle.reasons.specs.Parts.{has_its_phase, lasts_for};

use bank::interface::Bank;
use book::row::Row;
use stepping::cell::cell;

// Whether a part has the phase that the row gives it. `judging` asks it of the one byte that it reads for every part of every
// row; here it is asked of the whole cell, of one row.
fn has_its_phase<B: Bank>(bank: &B, row: &Row, part: u8) -> bool
    requires { part < (B.family bank.now).count }
    ensures { result ≡ has_its_phase (B.family bank.now) (cells_of row.now.bytes) part }
{
    cell(row, part).is_some_and(|cell| bank.has_phase(part, cell.phase))
}

// The first part that does not have the phase which the row gives it.
pub fn missing_phase<B: Bank>(bank: &B, row: &Row) -> Option<u8>
    ensures { result ≡ seek (has_its_phase (B.family bank.now) (cells_of row.now.bytes)) 0 (B.family bank.now).count }
{
    (0..bank.part_count()).find(|part| !has_its_phase(bank, row, *part))
}

// Whether d ticks are at most what the row leaves to a part. As in `stepping`, that it is below 16 is asked as it is.
fn lasts_for(row: &Row, part: u8, d: u32) -> bool
    requires { part < 16 }
    ensures { result ≡ lasts_for d (cells_of row.now.bytes) part }
{
    cell(row, part).is_some_and(|cell| cell.remaining.lasts(u64::from(d)))
}

// The first part that does not last for d ticks.
pub fn first_short<B: Bank>(bank: &B, row: &Row, d: u32) -> Option<u8>
    ensures { result ≡ seek (lasts_for d (cells_of row.now.bytes)) 0 (B.family bank.now).count }
{
    (0..bank.part_count()).find(|part| !lasts_for(row, *part, d))
}
