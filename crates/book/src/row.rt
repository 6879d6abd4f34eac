ghost use Rattle.std.specs.Prelude.{◌≡◌};
ghost use Rattle.std.specs.Ordering.{is_lt};
ghost use Rattle.book.specs.Records.{byte_order, row_order};
ghost use Rattle.book.specs.Orders.{row_total};

use crate::bytes::compare;
use crate::record::Record;
use std::cmp::Ordering;

// A row as bytes: 16 parts of three bytes each, the phase and then the remaining ticks, high byte first.
// Rows are ordered as bytes.
#[derive(Clone, Copy, PartialEq, Eq, PartialOrd, Ord)]
pub struct Row {
    pub bytes: [u8; 48],
}

impl Row {
    // The row whose bytes are all 0.
    pub const ZERO: Row = Row { bytes: [0; 48] };
}

// Whether bytes stand strictly below others.
pub fn below(one: &[u8], other: &[u8]) -> bool
    ensures { result ≡ is_lt (byte_order one.now other.now) }
{
    compare(one, other).is_lt()
}

// Rows are ordered as bytes, compared eight at a time: the derived order is the same and takes twice as long.
impl Record for Row {
    ghost order = { row_order };

    ghost total = { row_total };

    fn compare(&self, other: &Row) -> Ordering {
        compare(&self.bytes, &other.bytes)
    }
}
