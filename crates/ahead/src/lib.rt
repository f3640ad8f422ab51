// What lies ahead in a text, by the first word of each line; and the line and column of a place.
#![tactic(auto)]

ghost use Rattle.std.specs.Prelude.{◌≡◌, ◌<◌, ◌^◌, drop};
ghost use Rattle.rules.specs.Text.{rows_ahead, threads_ahead};
ghost use Rattle.ahead.specs.Counts.{LinesCounted, PlacedAt, Behind, row_here, thread_here};

// A line and a column, both from 1, the column in bytes.
#[derive(Clone, Copy)]
pub struct Place {
    pub line: usize,
    pub column: usize,
}

// The rows from here on up to the next thread, to the condition or to the end; so many lines at most.
pub fn rows_ahead(text: &[u8], lines: usize, at: usize) -> usize
    ensures { LinesCounted result lines (rows_ahead lines (drop at text.now)) }
{
    let mut rows = 0;
    let mut from = at;
    for i in 0..lines {
        let here = token::past_blanks(text, from);
        let to = token::token_end(text, here);
        if text.len() <= here {
            return rows;
        }
        if token::is_word(text, b"thread", here, to) {
            return rows;
        }
        if token::is_word(text, b"finally", here, to) {
            return rows;
        }
        rows += row_here(text, here);
        from = token::next_line(text, here);
    }
    rows
}

// One, where a token stands here.
fn row_here(text: &[u8], at: usize) -> usize
    ensures { LinesCounted result 1 (row_here (drop at text.now)) }
{
    usize::from(!token::ends_line(text, at))
}

// The threads from here on; so many lines at most.
pub fn threads_ahead(text: &[u8], lines: usize, at: usize) -> usize
    ensures { LinesCounted result lines (threads_ahead lines (drop at text.now)) }
{
    let mut threads = 0;
    let mut from = at;
    for i in 0..lines {
        let here = token::past_blanks(text, from);
        let to = token::token_end(text, here);
        if text.len() <= here {
            return threads;
        }
        if token::is_word(text, b"finally", here, to) {
            return threads;
        }
        threads += thread_here(text, here, to);
        from = token::next_line(text, here);
    }
    threads
}

// One, where the token says `thread`.
fn thread_here(text: &[u8], at: usize, to: usize) -> usize
    ensures { LinesCounted result 1 (thread_here at to text.now) }
{
    usize::from(token::is_word(text, b"thread", at, to))
}

// The line and column of a place.
pub fn place_of(text: &[u8], at: usize) -> Place
    ensures { PlacedAt text.now (drop at text.now) result }
{
    let mut place = Place { line: 1, column: 1 };
    for &byte in token::part(text, 0, at) {
        place = behind(byte, place);
    }
    place
}

// The place behind a byte.
fn behind(byte: u8, place: Place) -> Place
    requires { (place.line < 2 ^ 63) × (place.column < 2 ^ 63) }
    ensures { Behind place.line place.column byte result }
{
    if byte == b'\n' {
        return Place {
            line: place.line + 1,
            column: 1,
        };
    }
    Place {
        line: place.line,
        column: place.column + 1,
    }
}
