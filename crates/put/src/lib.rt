// Text put into a lent buffer. What there is no room for is not written, and is counted all the same, so that the same functions tell how
// long a text is.
#![tactic(auto)]

ghost use Rattle.std.specs.Prelude.{[], ◌∷◌};
ghost use Rattle.rules.specs.Writer.{shown, order_shown};
ghost use Rattle.put.specs.Puts.{Puts};

use digits::MOST_DIGITS;
use token::{ORDERS, word_at};

// Puts a byte here, and answers the place behind it.
pub fn put_byte(text: &mut [u8], at: usize, byte: u8) -> usize
    ensures { Puts text.old text.new at (byte ∷ []) result }
{
    if at < text.len() {
        text[at] = byte;
    }
    at.saturating_add(1)
}

pub fn put_bytes(text: &mut [u8], at: usize, bytes: &[u8]) -> usize
    ensures { Puts text.old text.new at bytes.now result }
{
    let mut to = at;
    for &byte in bytes {
        to = put_byte(text, to, byte);
    }
    to
}

// A number in decimal.
pub fn put_number(text: &mut [u8], at: usize, value: u64) -> usize
    ensures { Puts text.old text.new at (shown value) result }
{
    let mut digits = [0u8; MOST_DIGITS];
    let k = digits::spell(&mut digits, value);
    put_bytes(text, at, &digits[..k])
}

// The name of an order; nothing where it is none.
pub fn put_order(text: &mut [u8], at: usize, order: u64) -> usize
    ensures { Puts text.old text.new at (order_shown order) result }
{
    put_bytes(text, at, word_at(&ORDERS, order))
}
