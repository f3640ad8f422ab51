// The sentence on a text that is refused.
#![tactic(auto)]

ghost use Rattle.std.specs.Prelude.{◌≡◌, drop};
ghost use Rattle.rules.specs.Token.{bytes_of, token, past_blanks, number_in, plain_in};
ghost use Rattle.token.specs.Places.{part};
ghost use Rattle.put.specs.Puts.{Puts};
ghost use Rattle.saying.specs.Sayings.{name_shown, place_shown, is_clear, names_plain, names_cell, why_no_plain, why_no_row, why_no_number, reason, what_shown};

use put::{put_byte, put_bytes, put_number};

// The longest token that is named; of a longer one only the place is said.
const NAMED: usize = 40;

// Where a token stands in its text: the number of its row, where its line begins, where the token before it begins, and where it begins
// itself.
#[derive(Clone, Copy)]
pub struct Spot {
    pub row: usize,
    pub begin: usize,
    pub before: usize,
    pub place: usize,
}

// Puts the file, the line and the column.
pub fn put_place(page: &mut [u8], at: usize, name: &[u8], line: usize, column: usize) -> usize
    ensures { Puts page.old page.new at (place_shown name.now line column) result }
{
    let refused = put_bytes(page, at, b"answer 5: refused: ");
    let named = put_name(page, refused, name);
    let of_line = put_bytes(page, named, b"line ");
    let line_put = put_number(page, of_line, line as u64);
    let of_column = put_bytes(page, line_put, b", column ");
    let column_put = put_number(page, of_column, column as u64);
    put_bytes(page, column_put, b": ")
}

// Puts the name of a file, where there is one.
fn put_name(page: &mut [u8], at: usize, name: &[u8]) -> usize
    ensures { Puts page.old page.new at (name_shown name.now) result }
{
    if name.len() == 0 {
        return at;
    }
    let behind = put_bytes(page, at, name);
    put_bytes(page, behind, b": ")
}

// Puts what stands there, and where that is clear from the line's first token and the one before, why it cannot; or that something is
// missing.
pub fn put_what(page: &mut [u8], at: usize, text: &[u8], spot: Spot) -> usize
    ensures { Puts page.old page.new at (what_shown text.now spot.row spot.begin spot.before spot.place) result }
{
    if token::ends_line(text, spot.place) {
        return put_bytes(page, at, b"something is missing here\n");
    }
    let end = token::token_end(text, spot.place);
    let word = token::part(text, spot.place, end);
    if !is_clear(word) {
        return put_bytes(page, at, b"this cannot stand here\n");
    }
    let quote = put_byte(page, at, b'`');
    let named = put_bytes(page, quote, word);
    let said = put_bytes(page, named, b"` cannot stand here");
    let told = put_reason(page, said, text, spot, end);
    put_byte(page, told, b'\n')
}

// Whether a token can be named: it is short, and no byte that would steer a terminal, or a part of a letter.
fn is_clear(word: &[u8]) -> bool
    ensures { result ≡ is_clear word.now }
{
    if word.len() == 0 {
        return false;
    }
    if NAMED < word.len() {
        return false;
    }
    (b' ' <= word[0]) & (word[0] <= b'~')
}

// Why the token between two places cannot stand there.
fn put_reason(page: &mut [u8], at: usize, text: &[u8], spot: Spot, end: usize) -> usize
    ensures { Puts page.old page.new at (bytes_of (reason spot.row (token (past_blanks (drop spot.begin text.now))) (token (drop spot.before text.now)) (part spot.place end text.now))) result }
{
    if names_plain(text, spot.begin, spot.before) {
        return put_why_no_plain(page, at, text, spot.place, end);
    }
    put_why(page, at, text, spot, end)
}

// Whether a plain cell stands behind this token of the line that begins there.
fn names_plain(text: &[u8], begin: usize, before: usize) -> bool
    ensures { result ≡ names_plain (token (past_blanks (drop begin text.now))) (token (drop before text.now)) }
{
    let end = token::token_end(text, before);
    let read = token::is_word(text, b"read", before, end);
    let to = token::is_word(text, b"to", before, end);
    let first = token::past_blanks(text, begin);
    let behind = token::token_end(text, first);
    let write = token::is_word(text, b"write", first, behind);
    read | (write & to)
}

// Why a token cannot stand where a plain cell must. `p0` to `p3` are the names of plain cells, and so stand in the sentence as they are.
fn put_why_no_plain(page: &mut [u8], at: usize, text: &[u8], place: usize, end: usize) -> usize
    ensures { Puts page.old page.new at (bytes_of (why_no_plain (plain_in (part place end text.now)))) result }
{
    match token::plain(text, place, end) {
        Some(_) => put_bytes(page, at, b": there is no such plain cell"),
        None => put_bytes(page, at, b": a plain cell is p0 to p3"),
    }
}

// Why a number cannot stand there: behind these words only one that is too large is refused, and a jump to its own row.
fn put_why(page: &mut [u8], at: usize, text: &[u8], spot: Spot, end: usize) -> usize
    ensures { Puts page.old page.new at (bytes_of (why_no_number spot.row (token (drop spot.before text.now)) (number_in (part spot.place end text.now)))) result }
{
    let Some(value) = token::number(text, spot.place, end) else {
        return at;
    };
    let behind = token::token_end(text, spot.before);
    if token::is_word(text, b"jump", spot.before, behind) {
        return put_why_no_row(page, at, spot.row, value);
    }
    if token::is_word(text, b"join", spot.before, behind) {
        return put_bytes(page, at, b": there is no such thread");
    }
    if names_cell(text, spot.before, behind) {
        return put_bytes(page, at, b": there is no such cell");
    }
    at
}

// Why a jump of this row may not lead to that one.
fn put_why_no_row(page: &mut [u8], at: usize, row: usize, target: u64) -> usize
    ensures { Puts page.old page.new at (bytes_of (why_no_row row target)) result }
{
    if target == row as u64 {
        return put_bytes(page, at, b": a jump to its own row never ends");
    }
    put_bytes(page, at, b": its thread has no such row")
}

// Whether a cell stands behind this word.
fn names_cell(text: &[u8], before: usize, end: usize) -> bool
    ensures { result ≡ names_cell (part before end text.now) }
{
    let load = token::is_word(text, b"load", before, end);
    let unsync = token::is_word(text, b"unsync_load", before, end);
    let to = token::is_word(text, b"to", before, end);
    let on = token::is_word(text, b"on", before, end);
    load | unsync | to | on
}
