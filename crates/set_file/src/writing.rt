// Writing a set file.
ghost use Rattle.std.specs.Prelude.{◌≡◌, ◌+◌, ◌-◌, ◌*◌, ◌<◌, ◌≤◌, length, take, OnOk, IsNone, nat_le};
ghost use Rattle.std.proofs.Math.Seq.{paste};
ghost use Rattle.std.specs.List.{flat_map};
ghost use Rattle.fddevs.specs.Vetting.{seek};
ghost use Rattle.set_file.specs.Layout.{head, front};
ghost use Rattle.set_file.specs.Writing.{Whole, size_vetting, clean, clean_at, rises, write_vetting, written, left, ReadBack};

use crate::layout::{KIND, VERSION, body_fits, some_parts, width};
use book::row::{Row, below};
use fddevs::refusal::{Layer, Refusal};

// Whether an output of `size` bytes has room for a file of `count` rows.
fn has_room(width: usize, count: usize, size: usize) -> bool
    requires { 0 < width }
    ensures { result ≡ nat_le (6 + count * width) size }
{
    6 <= size && count <= (size - 6) / width
}

// Whether `count` rows of n parts make a file, and the output has room for it.
fn vet_size(n: u8, count: usize, size: usize) -> Result<(), Refusal>
    ensures { result ≡ size_vetting n count size }
{
    if !some_parts(n) {
        return Err(Refusal::RowParts);
    }
    let width = width(n);
    if !has_room(width, count, size) {
        return Err(Refusal::NoRoom);
    }
    if !body_fits(count * width) {
        return Err(Refusal::Body(Layer::BookAndPlayback));
    }
    Ok(())
}

// The width of a row, which this and two more functions ask to be at most 48, is that of a number of parts which `vet_size`
// tested: a type for such widths would be made at each call from the same fact.

// Whether the bytes of a row beyond the first `width` are 0.
fn clean(width: usize, row: &Row) -> bool
    requires { width ≤ 48 }
    ensures clean { result ≡ clean width row.now }
    ensures whole { length row.now.bytes ≡ 48 }
{
    row.bytes[width..].iter().all(|&byte| byte == 0)
}

// The first row with a byte beyond its first `width` that is not 0.
fn first_unclean(width: usize, rows: &[Row]) -> Option<usize>
    requires { width ≤ 48 }
    ensures place { result ≡ seek (clean_at width rows.now) 0 (length rows.now) }
    ensures whole { IsNone result → Whole rows.now (length rows.now) }
{
    rows.iter().position(|row| !clean(width, row))
}

// Whether row k is above the one before it, compared eight bytes at a time.
fn rises(rows: &[Row], k: usize) -> bool
    requires { (1 ≤ k) × (k < length rows.now) }
    ensures { result ≡ rises rows.now k }
{
    below(&rows[k - 1].bytes, &rows[k].bytes)
}

// The first row that is not above the one before it: of records, where `Rows` knows it of bytes.
fn first_fall(rows: &[Row]) -> Option<usize>
    ensures { result ≡ seek (rises rows.now) 1 (length rows.now - 1) }
{
    (1..rows.len()).find(
        |&k|
            requires { (1 ≤ k) × (k < length rows.now) }
        { !rises(rows, k) },
    )
}

// Whether the rows make a file, and the output has room for it.
fn vet(n: u8, rows: &[Row], size: usize) -> Result<(), Refusal>
    ensures vetting { result ≡ write_vetting n rows.now size }
    ensures whole { OnOk result (Whole rows.now (length rows.now)) }
{
    vet_size(n, rows.len(), size)?;
    if let Some(k) = first_unclean(width(n), rows) {
        return Err(Refusal::RowBytes(k));
    }
    match first_fall(rows) {
        Some(k) => Err(Refusal::RowOrder(Layer::BookAndPlayback, k)),
        None => Ok(()),
    }
}

// The head of a set file whose body has `body` bytes.
fn write_head(body: u32, out: &mut [u8])
    requires { 6 ≤ length out.old }
    ensures { out.new ≡ paste out.old 0 (head body) 6 }
{
    let [a, b, c, d] = body.to_be_bytes();
    out[0..6].copy_from_slice(&[VERSION, KIND, a, b, c, d]);
}

// The first `width` bytes of each row, behind the head.
fn write_rows(width: usize, rows: &[Row], out: &mut [u8])
    requires { (width ≤ 48) × (6 + length rows.now * width ≤ length out.old) }
    ensures long { length (flat_map (front width) rows.now) ≡ length rows.now * width }
    ensures after { out.new ≡ paste out.old 6 (flat_map (front width) rows.now) (length rows.now * width) }
{
    for (k, row) in rows.iter().enumerate() {
        let at = 6 + k * width;
        out[at..at + width].copy_from_slice(&row.bytes[..width]);
    }
}

// The set file of these rows, each as the bytes of its first n parts. The length of the body is vetted before it is cast.
fn write_all(n: u8, rows: &[Row], out: &mut [u8]) -> Result<usize, Refusal>
    ensures answer { result ≡ written n rows.now (length out.old) }
    ensures after { out.new ≡ left n rows.now out.old }
    ensures whole { OnOk result (Whole rows.now (length rows.now)) }
{
    vet(n, rows, out.len())?;
    let width = width(n);
    let body = rows.len() * width;
    write_head(body as u32, out);
    write_rows(width, rows, out);
    Ok(6 + body)
}

// The first `count` rows, all if the count is larger.
fn first(rows: &[Row], count: usize) -> &[Row]
    ensures { result.now ≡ take count rows.now }
{
    rows.get(..count).unwrap_or(rows)
}

// Writes the set file of the first `count` rows, all if the count is larger, each as the bytes of its first n parts.
// Answers the file's length; the bytes behind it stay, and a refusal leaves the output as it was.
pub fn write(n: u8, rows: &[Row], count: usize, out: &mut [u8]) -> Result<usize, Refusal>
    ensures answer { result ≡ written n (take count rows.now) (length out.old) }
    ensures after { out.new ≡ left n (take count rows.now) out.old }
    ensures again { ReadBack n (take count rows.now) result out.new }
{
    write_all(n, first(rows, count), out)
}
