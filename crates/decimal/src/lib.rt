// Decimal numbers in texts.
#![tactic(auto)]

ghost use Rattle.std.specs.Prelude.{◌≡◌};
ghost use Rattle.decimal.specs.Decimal.{number_spelled, between, with_digit};

// The number that a text spells: digits only, at least one, and below 2^64.
pub fn number(text: &[u8]) -> Option<u64>
    ensures { result ≡ number_spelled text.now }
{
    if text.is_empty() {
        return None;
    }
    let mut value = 0;
    for &byte in text {
        value = with_digit(value, byte)?;
    }
    Some(value)
}

// The number that a text spells, if it is not below `least` and not above `most`.
pub fn number_between(text: &[u8], least: u64, most: u64) -> Option<u64>
    ensures { result ≡ between least most (number_spelled text.now) }
{
    let value = number(text)?;
    if (value < least) | (most < value) {
        return None;
    }
    Some(value)
}

// A number with one more digit behind it, unless the byte is no digit or the number does not fit.
fn with_digit(value: u64, byte: u8) -> Option<u64>
    ensures { result ≡ with_digit value byte }
{
    if !byte.is_ascii_digit() {
        return None;
    }
    value.checked_mul(10)?.checked_add((byte - b'0') as u64)
}
