// A line of a text, put into the table that is made in a buffer. Each promise is by the definition in rules (Text).
#![tactic(auto)]

ghost use Rattle.std.specs.Prelude.{◌≡◌, cond, ltb, ◌+◌, ◌≤◌, ◌<◌, length, get_or, drop, Ok, Err};
ghost use Rattle.std.proofs.Math.Seq.{paste};
ghost use Rattle.rules.specs.Table.{header_bytes};
ghost use Rattle.rules.specs.Text as rules;
ghost use Rattle.token.specs.Places.{part};
ghost use Rattle.filling.specs.Tables.{HoldsTable, RowFits, CountsAt, how_many, with_cell_or_plain, Grows};
ghost use Rattle.filling.specs.Steps.{Bare, LineSteps, is_plains, a_thread_at, a_row_at};

use form::{Fields, Room};
use layout::{MAX_CELLS, MAX_PLAINS, MAX_THREADS};
use little::low_bytes;
use table::limits::{
    CELL_COUNT, COUNT_OF_LAST, MAX_ROWS, PLAIN_COUNT, ROW_BYTES, THREAD_COUNT, VALUE_BYTES,
};

// How far a text is read: to a line that begins at this place, in a thread of so many rows, behind a table of so many bytes.
#[derive(Clone, Copy)]
pub struct Reached {
    pub rows: usize,
    pub length: usize,
    pub at: usize,
}

// How a line that is not refused comes out: the next one follows; the text ends; the condition follows. For one that is refused stands the
// place where.
#[derive(Clone, Copy)]
pub enum Line {
    GoesOn(Reached),
    Ended,
    Concludes(usize),
}

// The first token of a line: where it begins, and where it ends.
#[derive(Clone, Copy)]
struct FirstToken {
    here: usize,
    to: usize,
}

// Start values, of cells or of plain cells: how many at most, and the place at which the header counts them.
#[derive(Clone, Copy)]
struct StartValues {
    most: usize,
    place: usize,
}

const CELL_VALUES: StartValues = StartValues {
    most: MAX_CELLS,
    place: CELL_COUNT,
};

const PLAIN_VALUES: StartValues = StartValues {
    most: MAX_PLAINS,
    place: PLAIN_COUNT,
};

// One line, in a text of so many lines at most and so many threads.
pub fn line_of(
    text: &[u8],
    table: &mut [u8],
    lines: usize,
    all: usize,
    reached: Reached,
) -> Result<Line, usize>
    requires { HoldsTable table.old reached.length }
    ensures { LineSteps text.now table.old table.new reached.length result (λ m. rules.line_of lines all reached.rows m (drop reached.at text.now)) }
{
    let here = token::past_blanks(text, reached.at);
    if text.len() <= here {
        if table[THREAD_COUNT] == 0 {
            return Err(here);
        }
        return Ok(Line::Ended);
    }
    let length = reached.length;
    if token::ends_line(text, here) {
        return Ok(Line::GoesOn(Reached {
            rows: reached.rows,
            length,
            at: token::next_line(text, here),
        }));
    }
    let to = token::token_end(text, here);
    let first = FirstToken { here, to };
    if table[CELL_COUNT] == 0 {
        if token::is_word(text, b"cells", here, to) {
            return values_line(text, table, CELL_VALUES, length, to);
        }
        return Err(here);
    }
    if is_plain_line(text, table, first) {
        return values_line(text, table, PLAIN_VALUES, length, to);
    }
    if token::is_word(text, b"thread", here, to) {
        return a_thread(text, table, lines, length, first);
    }
    if token::is_word(text, b"finally", here, to) {
        return the_condition(table, first);
    }
    a_row(text, table, all, reached, here)
}

// `finally`, once there is a thread.
fn the_condition(header: &[u8], first: FirstToken) -> Result<Line, usize>
    requires { 1 ≤ length header.now }
    ensures { result ≡ cond (ltb 0 (get_or header.now 0 0)) (Ok (Line.Concludes first.to)) (Err first.here) }
{
    if 0 < header[THREAD_COUNT] {
        return Ok(Line::Concludes(first.to));
    }
    Err(first.here)
}

// `thread`, and its rows.
fn a_thread(
    text: &[u8],
    table: &mut [u8],
    lines: usize,
    length: usize,
    first: FirstToken,
) -> Result<Line, usize>
    requires { HoldsTable table.old length }
    ensures { LineSteps text.now table.old table.new length result (λ m. a_thread_at lines m (drop first.here text.now) (drop first.to text.now)) }
{
    let threads = table[THREAD_COUNT] as usize;
    if MAX_THREADS <= threads {
        return Err(first.here);
    }
    let rows = ahead::rows_ahead(text, lines, token::next_line(text, first.here));
    add_thread(table, length);
    bare_then(
        text,
        Reached {
            rows,
            length,
            at: first.to,
        },
    )
}

// A row: only in a thread, and no more than a thread may have.
fn a_row(
    text: &[u8],
    table: &mut [u8],
    all: usize,
    reached: Reached,
    here: usize,
) -> Result<Line, usize>
    requires { HoldsTable table.old reached.length }
    ensures { LineSteps text.now table.old table.new reached.length result (λ m. a_row_at all reached.rows m (drop reached.at text.now) (drop here text.now)) }
{
    let threads = table[THREAD_COUNT] as usize;
    if threads == 0 {
        return Err(here);
    }
    let before = table[COUNT_OF_LAST + threads] as usize;
    if MAX_ROWS <= before {
        return Err(here);
    }
    let room = Room {
        threads: all,
        cells: table[CELL_COUNT] as usize,
        plains: table[PLAIN_COUNT] as usize,
        rows: reached.rows,
        row: before,
    };
    let row = form::row_in(text, room, reached.at)?;
    add_row(table, reached.length, row.fields);
    Ok(Line::GoesOn(Reached {
        rows: reached.rows,
        length: reached.length + ROW_BYTES,
        at: row.at,
    }))
}

// Whether it is the line of the plain cells: behind the cells, ahead of the threads, once.
fn is_plain_line(text: &[u8], table: &[u8], first: FirstToken) -> bool
    requires { header_bytes ≤ length table.now }
    ensures { result ≡ is_plains table.now (part first.here first.to text.now) }
{
    if 0 < table[THREAD_COUNT] {
        return false;
    }
    if 0 < table[PLAIN_COUNT] {
        return false;
    }
    token::is_word(text, b"plain", first.here, first.to)
}

// A line of start values: one at least.
fn values_line(
    text: &[u8],
    table: &mut [u8],
    values: StartValues,
    length: usize,
    at: usize,
) -> Result<Line, usize>
    requires { HoldsTable table.old length × CountsAt values.place × (get_or table.old values.place 0 ≡ 0) × (values.most ≤ 4) }
    ensures { LineSteps text.now table.old table.new length result (λ m. rules.values_line (with_cell_or_plain values.place) (how_many values.place) values.most m (drop at text.now)) }
{
    let place = values.place;
    let mut from = at;
    let mut long = length;
    for i in 0..values.most {
        let here = token::past_blanks(text, from);
        let to = token::token_end(text, here);
        let Some(value) = token::number(text, here, to) else {
            if table[place] == 0 {
                return Err(here);
            }
            return behind_values(text, long, from);
        };
        add_value(table, long, place, value);
        long += VALUE_BYTES;
        from = to;
    }
    behind_values(text, long, from)
}

// Behind start values nothing else may stand in the line, and no thread is begun.
fn behind_values(text: &[u8], length: usize, from: usize) -> Result<Line, usize>
    ensures { Bare text.now from 0 length result }
{
    bare_then(
        text,
        Reached {
            rows: 0,
            length,
            at: from,
        },
    )
}

// Nothing else may stand in the line.
fn bare_then(text: &[u8], reached: Reached) -> Result<Line, usize>
    ensures { Bare text.now reached.at reached.rows reached.length result }
{
    let here = token::past_blanks(text, reached.at);
    if token::ends_line(text, here) {
        return Ok(Line::GoesOn(Reached {
            rows: reached.rows,
            length: reached.length,
            at: token::next_line(text, here),
        }));
    }
    Err(here)
}

// One start value more, which the header counts at this place.
fn add_value(table: &mut [u8], length: usize, place: usize, value: u64)
    requires { HoldsTable table.old length × CountsAt place × (get_or table.old place 0 < 4) }
    ensures { Grows table.old table.new length (length + 8) (λ m. with_cell_or_plain place m value) }
{
    let bytes = low_bytes(value);
    append(table, length, &bytes);
    let many = table[place];
    table[place] = many + 1;
}

// One thread more.
fn add_thread(table: &mut [u8], length: usize)
    requires { HoldsTable table.old length × (get_or table.old 0 0 < 5) }
    ensures { Grows table.old table.new length length rules.with_thread }
{
    let threads = table[THREAD_COUNT];
    table[THREAD_COUNT] = threads + 1;
}

// One row more, in the thread that was begun last.
fn add_row(table: &mut [u8], length: usize, fields: Fields)
    requires { RowFits table.old length }
    ensures { Grows table.old table.new length (length + 24) (λ m. rules.with_row m fields) }
{
    let bytes = form::row_bytes(fields);
    append(table, length, &bytes);
    let thread = table[THREAD_COUNT] as usize;
    let rows = table[COUNT_OF_LAST + thread];
    table[COUNT_OF_LAST + thread] = rows + 1;
}

// Puts bytes into the buffer from a place on.
pub fn append(buffer: &mut [u8], at: usize, bytes: &[u8])
    requires { at + length bytes.now ≤ length buffer.old }
    ensures { buffer.new ≡ paste buffer.old at bytes.now (length bytes.now) }
{
    buffer[at..at + bytes.len()].copy_from_slice(bytes);
}
