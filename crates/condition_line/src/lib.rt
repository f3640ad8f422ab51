// A final condition as a line of text.
#![tactic(auto)]

ghost use Rattle.std.specs.Prelude.{◌≡◌, false, ◌+◌, ◌-◌, ◌<◌, ◌≤◌, length, get_or, drop};
ghost use Rattle.rules.specs.Writer.{blank_before, units_shown, condition_shown};
ghost use Rattle.put.specs.Puts.{Puts};
ghost use Rattle.condition_line.specs.Units.{Units, symbol_shown, comparison_shown, unit_shown, unit_bytes};

use condition::{CLOSES, COMPARISON, EQUALS, NUMBER_AT, OPENS, REGISTER_AT, THREAD_AT, is_sign};
use little::u64_at;
use put::{put_byte, put_bytes, put_number};
use token::{SYMBOLS, word_at};

// The condition's line, unless there is none.
pub fn put_condition(text: &mut [u8], at: usize, condition: &[u8]) -> usize
    requires { Units condition.now }
    ensures { Puts text.old text.new at (condition_shown condition.now) result }
{
    if condition.len() == 0 {
        return at;
    }
    let first = put_bytes(text, at, b"finally");
    let behind = put_units(text, first, condition);
    put_byte(text, behind, b'\n')
}

// Its signs, words and comparisons.
fn put_units(text: &mut [u8], at: usize, condition: &[u8]) -> usize
    requires { Units condition.now }
    ensures { Puts text.old text.new at (units_shown (length condition.now) false condition.now) result }
{
    let mut to = at;
    let mut from = 0;
    let mut opened = false;
    for i in 0..condition.len() {
        if condition.len() <= from {
            return to;
        }
        to = put_unit(text, to, condition, opened, from);
        opened = condition[from] == OPENS;
        from += unit_bytes(condition[from]);
    }
    to
}

// The one that begins here. A blank stands before it, but not behind `(` and not before `)`.
fn put_unit(text: &mut [u8], at: usize, condition: &[u8], opened: bool, from: usize) -> usize
    requires { Units (drop from condition.now) × (from < length condition.now) }
    ensures { Puts text.old text.new at (unit_shown opened (get_or condition.now from 0) (drop (from + 1) condition.now)) result }
{
    let byte = condition[from];
    let first = put_blank(text, at, opened, byte);
    if is_sign(byte) {
        return put_comparison(text, first, condition, from);
    }
    put_symbol(text, first, byte)
}

fn put_blank(text: &mut [u8], at: usize, opened: bool, byte: u8) -> usize
    ensures { Puts text.old text.new at (blank_before opened byte) result }
{
    if opened | (byte == CLOSES) {
        return at;
    }
    put_byte(text, at, b' ')
}

// A comparison: the thread's register, the sign, the number.
fn put_comparison(text: &mut [u8], at: usize, condition: &[u8], from: usize) -> usize
    requires { (from + 11 ≤ length condition.now) × (get_or condition.now (from + 1) 0 < 10) × (get_or condition.now (from + 2) 0 < 10) }
    ensures { Puts text.old text.new at (comparison_shown (get_or condition.now from 0) (drop (from + 1) condition.now)) result }
{
    let thread = b'0' + condition[from + THREAD_AT];
    let register = b'0' + condition[from + REGISTER_AT];
    let name = [thread, b'.', b'r', register, b' '];
    let named = put_bytes(text, at, &name);
    let signed = put_symbol(text, named, condition[from]);
    let blank = put_byte(text, signed, b' ');
    put_number(text, blank, u64_at(condition, from + NUMBER_AT))
}

// The sign or word that a byte is; nothing past the last, and the first where there is no such byte.
fn put_symbol(text: &mut [u8], at: usize, byte: u8) -> usize
    ensures { Puts text.old text.new at (symbol_shown byte) result }
{
    let place = byte.saturating_sub(EQUALS);
    put_bytes(text, at, word_at(&SYMBOLS, place as u64))
}

fn unit_bytes(byte: u8) -> usize
    ensures { result ≡ unit_bytes byte }
{
    if is_sign(byte) { COMPARISON } else { 1 }
}
