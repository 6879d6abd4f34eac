ghost use Rattle.std.specs.Prelude.{◌≡◌, Some};
ghost use Rattle.session.specs.Numerals.{hex_digit, hex_pair, more, decimal};

// One more digit of a decimal number that fits 64 bits.
fn append(value: u64, b: u8) -> Option<u64>
    ensures { result ≡ more (Some value) b }
{
    let digit = char::from(b).to_digit(10)?;
    value.checked_mul(10)?.checked_add(u64::from(digit))
}

// The number that decimal digits write, of at least one digit and below 2^64.
pub fn decimal_number(text: &[u8]) -> Option<u64>
    ensures { result ≡ decimal text.now }
{
    if text.is_empty() {
        return None;
    }
    text.iter().try_fold(0, |value, b| append(value, *b))
}

// The value of a hexadecimal digit, in either case.
fn hexadecimal(b: u8) -> Option<u32>
    ensures { result ≡ hex_digit b }
{
    char::from(b).to_digit(16)
}

// The byte that a pair of hexadecimal digits writes.
pub fn hex_byte(text: &[u8]) -> Option<u8>
    ensures { result ≡ hex_pair text.now }
{
    let [high, low] = text else {
        return None;
    };
    u8::try_from(hexadecimal(*high)? * 16 + hexadecimal(*low)?).ok()
}
