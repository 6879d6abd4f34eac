// The rows of a set as records.
ghost use Rattle.std.specs.Prelude.{◌≡◌, map, IfOk};
ghost use Rattle.set_file.specs.Held.{held};
ghost use Rattle.rewriting.specs.Records.{padded, row_of};

use book::row::Row;
use set_file::reader::SetReader;
use std::alloc::{AllocError, Global};

// A row's record: its bytes, and 0 beyond them.
fn record_of(bytes: &[u8]) -> Row
    ensures { result ≡ row_of bytes.now }
{
    let mut row = [0u8; 48];
    let size = bytes.len().min(48);
    row[..size].copy_from_slice(&bytes[..size]);
    Row { bytes: row }
}

// The records of a set's rows, in order.
pub fn records(heap: Global, set: &SetReader) -> Result<Vec<Row>, AllocError>
    ensures { IfOk result (λ v. v.items ≡ map row_of (held set.now)) }
{
    (0..set.count())
        .filter_map(|k| set.row(k).map(record_of))
        .collect(heap)
}
