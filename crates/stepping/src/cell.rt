// The cells of a row, read from its bytes and written into them.
ghost use Rattle.std.specs.Prelude.{◌≡◌, ◌<◌, nat_lt, slice_set};
ghost use Rattle.fddevs.specs.Machine.{Short, when};
ghost use Rattle.stepping.specs.RowBytes.{cells_of};
ghost use Rattle.stepping.specs.Stepping.{nth_cell};

use book::row::Row;
use fddevs::part::{Cell, Span};

// No row says that 65535 ticks remain. That the part is below 16 is asked as it is: a type for such numbers would be made
// at each call from the same fact.
pub(crate) fn read(row: &Row, part: u8) -> Cell
    requires { part < 16 }
    ensures value { result ≡ nth_cell (cells_of row.now.bytes) part }
    ensures short { Short result.remaining }
{
    let at = 3 * usize::from(part);
    let ticks = u16::from_be_bytes([row.bytes[at + 1], row.bytes[at + 2]]);
    Cell {
        phase: row.bytes[at],
        remaining: Span::from(ticks),
    }
}

// The cell of a part: a row has cells for the parts 0 to 15.
pub fn cell(row: &Row, part: u8) -> Option<Cell>
    ensures { result ≡ when (nat_lt part 16) (nth_cell (cells_of row.now.bytes) part) }
{
    if part < 16 {
        Some(read(row, part))
    } else {
        None
    }
}

pub(crate) fn put(row: &mut Row, part: u8, cell: Cell)
    requires within { part < 16 }
    requires short { Short cell.remaining }
    ensures { cells_of row.new.bytes ≡ slice_set (cells_of row.old.bytes) part cell }
{
    let at = 3 * usize::from(part);
    let [high, low] = u16::from(cell.remaining).to_be_bytes();
    row.bytes[at] = cell.phase;
    row.bytes[at + 1] = high;
    row.bytes[at + 2] = low;
}
