// Tokens of a text, and what a word stands for. A place in a text is a number of bytes from its start; any number is one, and past the
// end nothing is left.
#![tactic(auto)]

ghost use Rattle.std.specs.Prelude.{[], ◌≡◌, ◌+◌, ◌-◌, ◌<◌, length, get_or, drop};
ghost use Rattle.rules.specs.Vector.{equal};
ghost use Rattle.rules.specs.Token.{run_length, is_blank, is_letter, is_between, ends_line, token_length, line_length, found_if, number_in, register_in, plain_in, place_in};
ghost use Rattle.rules.specs.Form.{order_in};
ghost use Rattle.rules.specs.Text.{symbol_in};
ghost use Rattle.token.specs.Places.{is_of, part, Content};
ghost use Rattle.token.specs.Finds.{found_of, FindsOwned, digit_behind, words_in};

use condition::EQUALS;
use layout::{MAX_PLAINS, MAX_THREADS, REGISTERS};

// The bytes that make a token, or stand between two.
#[derive(Clone, Copy)]
enum Kind {
    Blank,
    Letter,
    Symbol,
}

// The words of the orders, each at its number's place; the signs and words of a condition, whose bytes count from EQUALS on. Texts are read
// and written by these lists.
pub const ORDERS: [u8; 37] = *b"relaxed release acquire acqrel seqcst";

pub const SYMBOLS: [u8; 25] = *b"= != < <= > >= ( ) and or";

// The digits of the last thread, of the last register, and of the last plain cell.
const LAST_THREAD: u8 = b'0' + (MAX_THREADS - 1) as u8;

const LAST_REGISTER: u8 = b'0' + (REGISTERS - 1) as u8;

const LAST_PLAIN: u8 = b'0' + (MAX_PLAINS - 1) as u8;

// A register, and whose it is.
#[derive(Clone, Copy)]
pub struct Owned {
    pub thread: u64,
    pub register: u64,
}

// Past blanks.
pub fn past_blanks(text: &[u8], at: usize) -> usize
    ensures { result ≡ at + run_length is_blank (drop at text.now) }
{
    run_end(text, Kind::Blank, at)
}

// The end of the token that stands here, which is no further where the line ends.
pub fn token_end(text: &[u8], at: usize) -> usize
    ensures { result ≡ at + token_length (drop at text.now) }
{
    if ends_line(text, at) {
        return at;
    }
    let byte = text[at];
    if is_of(Kind::Letter, byte) {
        return run_end(text, Kind::Letter, at);
    }
    if is_of(Kind::Symbol, byte) {
        return run_end(text, Kind::Symbol, at);
    }
    at + 1
}

// Whether the line ends here: a line feed, a carriage return before one, a comment, or the text's end.
pub fn ends_line(text: &[u8], at: usize) -> bool
    ensures { result ≡ ends_line (drop at text.now) }
{
    if text.len() <= at {
        return true;
    }
    match text[at] {
        b'\n' | b'#' => true,
        b'\r' => at + 1 < text.len() && text[at + 1] == b'\n',
        _ => false,
    }
}

// Where the next line begins, or the text's end.
pub fn next_line(text: &[u8], at: usize) -> usize
    ensures { result ≡ at + line_length (drop at text.now) }
{
    for to in at..text.len() {
        if text[to] == b'\n' {
            return to + 1;
        }
    }
    text.len().max(at)
}

// Past blanks and line ends, so many lines at most: where the next token stands.
pub fn content(text: &[u8], lines: usize, at: usize) -> usize
    ensures { Content text.now at lines result }
{
    let mut from = at;
    for i in 0..lines {
        let to = past_blanks(text, from);
        if text.len() <= to || !ends_line(text, to) {
            return to;
        }
        from = next_line(text, to);
    }
    past_blanks(text, from)
}

// The bytes from one place up to another, as far as the text has them.
pub fn part(text: &[u8], from: usize, to: usize) -> &[u8]
    ensures { result.now ≡ part from to text.now }
{
    text.get(from..to.min(text.len())).unwrap_or(&[])
}

// Whether these bytes are that word.
pub fn is_word(text: &[u8], word: &[u8], from: usize, to: usize) -> bool
    ensures { result ≡ equal (part from to text.now) word.now }
{
    part(text, from, to) == word
}

// A decimal number below 2^64, without leading zeros.
pub fn number(text: &[u8], from: usize, to: usize) -> Option<u64>
    ensures { found_of result ≡ number_in (part from to text.now) }
{
    let word = part(text, from, to);
    if 1 < word.len() && word[0] == b'0' {
        return None;
    }
    decimal::number(word)
}

// A register, `r0` to `r3`.
pub fn register(text: &[u8], from: usize, to: usize) -> Option<u64>
    ensures { found_of result ≡ register_in (part from to text.now) }
{
    digit_behind(part(text, from, to), LAST_REGISTER, b'r')
}

// A plain cell, `p0` to `p3`.
pub fn plain(text: &[u8], from: usize, to: usize) -> Option<u64>
    ensures { found_of result ≡ plain_in (part from to text.now) }
{
    digit_behind(part(text, from, to), LAST_PLAIN, b'p')
}

// A thread's register, `0.r0` to `4.r3`.
pub fn thread_register(text: &[u8], from: usize, to: usize) -> Option<Owned>
    ensures { FindsOwned (part from to text.now) result }
{
    let [owner, point, letter, own] = part(text, from, to) else {
        return None;
    };
    if *point != b'.' || *letter != b'r' {
        return None;
    }
    let thread = digit(LAST_THREAD, *owner)?;
    let register = digit(LAST_REGISTER, *own)?;
    Some(Owned { thread, register })
}

// The number of an order.
pub fn order(text: &[u8], from: usize, to: usize) -> Option<u64>
    ensures { found_of result ≡ order_in (part from to text.now) }
{
    place_in(part(text, from, to), &ORDERS, 0)
}

// The byte that a sign or word of a condition is.
pub fn symbol(text: &[u8], from: usize, to: usize) -> Option<u64>
    ensures { found_of result ≡ symbol_in (part from to text.now) }
{
    place_in(part(text, from, to), &SYMBOLS, EQUALS as u64)
}

// The place of a word in a list of words, which begins with place `first`.
fn place_in(word: &[u8], words: &[u8], first: u64) -> Option<u64>
    requires { (length words.now < 100) × (first < 100) }
    ensures { found_of result ≡ place_in first word.now (words_in (length words.now) words.now) }
{
    let mut from = 0;
    for place in first..first + words.len() as u64 {
        let at = past_blanks(words, from);
        if words.len() <= at {
            return None;
        }
        from = token_end(words, at);
        if word == part(words, at, from) {
            return Some(place);
        }
    }
    None
}

// The word that stands at a place of a list of words, the first at 0; none past the last.
pub fn word_at(words: &[u8], place: u64) -> &[u8]
    ensures { result.now ≡ get_or (words_in (length words.now) words.now) place [] }
{
    let mut from = 0;
    for i in 0..words.len() as u64 {
        let at = past_blanks(words, from);
        if words.len() <= at {
            return &[];
        }
        from = token_end(words, at);
        if i == place {
            return part(words, at, from);
        }
    }
    &[]
}

// A letter, and a digit behind it that is not above the last.
fn digit_behind(word: &[u8], last: u8, letter: u8) -> Option<u64>
    ensures { found_of result ≡ digit_behind last letter word.now }
{
    let [first, second] = word else {
        return None;
    };
    if *first != letter {
        return None;
    }
    digit(last, *second)
}

// The number of a digit that is not above the last.
fn digit(last: u8, byte: u8) -> Option<u64>
    ensures { found_of result ≡ found_if (is_between 48 last byte) (byte - 48) }
{
    if byte < b'0' || last < byte {
        return None;
    }
    Some((byte - b'0') as u64)
}

// The end of a run of such bytes.
fn run_end(text: &[u8], kind: Kind, at: usize) -> usize
    ensures { result ≡ at + run_length (is_of kind) (drop at text.now) }
{
    for to in at..text.len() {
        if !is_of(kind, text[to]) {
            return to;
        }
    }
    text.len().max(at)
}

// Whether it is such a byte.
fn is_of(kind: Kind, byte: u8) -> bool
    ensures { result ≡ is_of kind byte }
{
    match kind {
        Kind::Blank => matches!(byte, b' ' | b'\t'),
        Kind::Letter => is_letter(byte),
        Kind::Symbol => matches!(byte, b'=' | b'!' | b'<' | b'>'),
    }
}

// Whether it is a letter, a digit, `_` or `.`.
fn is_letter(byte: u8) -> bool
    ensures { result ≡ is_letter byte }
{
    byte.is_ascii_alphanumeric() | (byte == b'_') | (byte == b'.')
}
