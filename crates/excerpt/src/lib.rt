// A line of a text, with a caret under one of its bytes: for a person whose text is refused. A long line is cut around the caret.
#![tactic(auto)]

ghost use Rattle.std.specs.Prelude.{◌≡◌, map, ◌+◌, ◌<◌, ◌^◌, length, drop};
ghost use Rattle.put.specs.Puts.{Puts};
ghost use Rattle.excerpt.specs.Excerpts.{excerpt_at, begin_of, with_line, rows_before, shown_length, feeds, place_from, token_before, first_shown, last_shown, seen_as, dots, line_shown, caret_shown, refused_shown};

use put::{put_byte, put_bytes};
use saying::Spot;

// How many bytes of a line are shown at most, and how many of them before the caret.
const WIDEST: usize = 200;

const BEFORE: usize = 100;

// ASCII's delete: it steers a terminal as those below the blank do.
const DELETE: u8 = 127;

// A line that is shown, with a place in it: where the line begins, the place, and where the line ends.
#[derive(Clone, Copy)]
pub struct Excerpt {
    pub begin: usize,
    pub place: usize,
    pub end: usize,
}

// Puts that a text is refused at a line and column: what stands there, the line, and a caret. The name of the text's file comes first,
// where there is one.
pub fn put(
    page: &mut [u8],
    at: usize,
    name: &[u8],
    text: &[u8],
    line: usize,
    column: usize,
) -> usize
    ensures { Puts page.old page.new at (refused_shown name.now text.now line column) result }
{
    let shown = excerpt_at(text, line, column);
    let row = rows_before(text, line);
    let before = token_before(text, shown.begin, shown.place);
    let spot = Spot {
        row,
        begin: shown.begin,
        before,
        place: shown.place,
    };
    let named = saying::put_place(page, at, name, line, column);
    let what = saying::put_what(page, named, text, spot);
    let behind = put_line(page, what, text, shown);
    put_caret(page, behind, text, shown)
}

// A line of the text, and the place of a column in it.
pub fn excerpt_at(text: &[u8], line: usize, column: usize) -> Excerpt
    ensures { result ≡ excerpt_at text.now line column }
{
    let begin = line_begin(text, line);
    let end = line_end(text, begin);
    Excerpt {
        begin,
        place: place_in(column, begin, end),
        end,
    }
}

// Where a line begins, the first being 1; the text's end where it has fewer.
pub fn line_begin(text: &[u8], line: usize) -> usize
    ensures { result ≡ begin_of line text.now }
{
    let mut at = 0;
    for _passed in 1..line {
        at = token::next_line(text, at);
    }
    at
}

// How many rows stand before a line in its thread, the first line being 1: the number of the row in it.
pub fn rows_before(text: &[u8], line: usize) -> usize
    ensures { result ≡ rows_before line text.now }
{
    let mut rows = 0;
    let mut at = 0;
    for _passed in 1..line {
        rows = with_line(text, at, rows);
        at = token::next_line(text, at);
    }
    rows
}

// The rows of a thread with the line that begins here: one more where it has a token, and none where that says `thread`.
fn with_line(text: &[u8], at: usize, rows: usize) -> usize
    requires { rows + 1 < 2 ^ 64 }
    ensures { result ≡ with_line rows (drop at text.now) }
{
    let here = token::past_blanks(text, at);
    if token::ends_line(text, here) {
        return rows;
    }
    let to = token::token_end(text, here);
    if token::is_word(text, b"thread", here, to) {
        return 0;
    }
    rows + 1
}

// Where the line that goes on here ends: at a line feed, at a carriage return before one, or at the text's end. A comment is a part of it.
pub fn line_end(text: &[u8], at: usize) -> usize
    ensures { result ≡ at + shown_length (drop at text.now) }
{
    for to in at..text.len() {
        if is_feed(text, to) {
            return to;
        }
    }
    text.len().max(at)
}

// Whether a line feed stands here, or a carriage return before one.
fn is_feed(text: &[u8], at: usize) -> bool
    ensures { result ≡ feeds (drop at text.now) }
{
    if text.len() <= at {
        return false;
    }
    if text[at] == b'\n' {
        return true;
    }
    if text[at] != b'\r' {
        return false;
    }
    if text.len() <= at + 1 {
        return false;
    }
    text[at + 1] == b'\n'
}

// The place of a column in the line between two places; its end where the line is shorter.
pub fn place_in(column: usize, begin: usize, end: usize) -> usize
    ensures { result ≡ place_from begin end column }
{
    if end.saturating_sub(begin) < column {
        return end;
    }
    begin + column.saturating_sub(1)
}

// Where the last token before a place begins, of those from here on in its line; here, where there is none: the sentence then looks at
// what stands here, so an Option would be no plainer.
pub fn token_before(text: &[u8], begin: usize, place: usize) -> usize
    ensures { result ≡ token_before text.now place (length text.now) begin begin }
{
    let mut found = begin;
    let mut from = begin;
    for _passed in 0..text.len() {
        let here = token::past_blanks(text, from);
        if place <= here {
            return found;
        }
        found = here;
        from = token::token_end(text, here);
    }
    found
}

// Puts the line, set in by two; of a long one what is around the place.
pub fn put_line(page: &mut [u8], at: usize, text: &[u8], shown: Excerpt) -> usize
    ensures { Puts page.old page.new at (line_shown text.now shown.begin shown.place shown.end) result }
{
    let from = first_shown(shown);
    let last = last_shown(from, shown.end);
    let indent = put_bytes(page, at, b"  ");
    let cut = put_dots(page, indent, b'.', shown.begin, from);
    let seen = put_seen(page, cut, token::part(text, from, last), false);
    let rest = put_dots(page, seen, b'.', last, shown.end);
    put_byte(page, rest, b'\n')
}

// Puts a caret below that line, under the byte at the place.
pub fn put_caret(page: &mut [u8], at: usize, text: &[u8], shown: Excerpt) -> usize
    ensures { Puts page.old page.new at (caret_shown text.now shown.begin shown.place) result }
{
    let from = first_shown(shown);
    let indent = put_bytes(page, at, b"  ");
    let cut = put_dots(page, indent, b' ', shown.begin, from);
    let under = put_seen(page, cut, token::part(text, from, shown.place), true);
    put_bytes(page, under, b"^\n")
}

// The first byte that is shown of the line, around the place.
fn first_shown(shown: Excerpt) -> usize
    ensures { result ≡ first_shown shown.begin shown.place }
{
    shown.begin.max(shown.place.saturating_sub(BEFORE))
}

// Behind the last byte that is shown, from the first one on, of a line that ends here.
fn last_shown(from: usize, end: usize) -> usize
    ensures { result ≡ last_shown from end }
{
    end.min(from.saturating_add(WIDEST))
}

// Three dots, or blanks below them, where bytes between two places are left out.
fn put_dots(page: &mut [u8], at: usize, byte: u8, from: usize, to: usize) -> usize
    ensures { Puts page.old page.new at (dots from to byte) result }
{
    if to <= from {
        return at;
    }
    put_bytes(page, at, &[byte, byte, byte])
}

// Puts bytes as they are seen, or the blanks to stand below them.
fn put_seen(page: &mut [u8], at: usize, bytes: &[u8], below: bool) -> usize
    ensures { Puts page.old page.new at (map (seen_as below) bytes.now) result }
{
    let mut to = at;
    for byte in bytes {
        to = put_byte(page, to, seen_as(*byte, below));
    }
    to
}

// A byte as it is seen: one that would steer a terminal is a question mark. Below it a blank, which is a tab below a tab, so that the
// caret stands right.
fn seen_as(byte: u8, below: bool) -> u8
    ensures { result ≡ seen_as below byte }
{
    if byte == b'\t' {
        return byte;
    }
    if below {
        return b' ';
    }
    if byte < b' ' {
        return b'?';
    }
    if byte == DELETE {
        return b'?';
    }
    byte
}
