// What the type of a record says of its bytes, made known to a caller's proof: it is called for that alone.
ghost use Rattle.std.specs.Prelude.{◌≡◌, length};
ghost use Rattle.stepping.specs.RowBytes.{Bytes};

use book::row::Row;

// Every number of a slice of bytes is a byte.
fn know_bytes(bytes: &[u8]) -> Option<&u8>
    ensures { Bytes bytes.now }
{
    bytes.first()
}

// So it is of a record, which has 48 of them.
pub fn know_row(row: &Row)
    ensures bytes { Bytes row.now.bytes }
    ensures whole { length row.now.bytes ≡ 48 }
{
    know_bytes(&row.bytes);
    let _ = row.bytes[0];
}
