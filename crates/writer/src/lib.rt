// A table and a final condition written as text, into a lent buffer.
#![tactic(auto)]

ghost use Rattle.std.specs.Prelude.{◌≡◌, ◌+◌, ◌<◌, ◌^◌};
ghost use Rattle.rules.specs.Table.{threads_of, judged, good};
ghost use Rattle.rules.specs.Writer.{rows_shown, threads_shown, values_shown, plains_shown, written_text, written_into};
ghost use Rattle.put.specs.Puts.{Puts};
ghost use Rattle.condition_line.specs.Units.{Units};
ghost use Rattle.writer.specs.Answers.{Fit, with_text};

use condition_line::put_condition;
use layout::{wide8, wide16};
use put::{put_byte, put_bytes, put_number};
use row_line::put_row;
use table::limits::{CELL_COUNT, PLAIN_COUNT, THREAD_COUNT};
use table::{COUNTS, FIRSTS};

// Why nothing was written: a table or a condition that is none; or too small a buffer, with the bytes that are needed.
#[derive(Clone, Copy)]
pub enum Unwritten {
    Unfit,
    Short(usize),
}

// Writes the text, and zeros behind it; answers its length. Otherwise the buffer is left as it is.
pub fn write(table: &[u8], condition: &[u8], text: &mut [u8]) -> Result<usize, Unwritten>
    ensures { with_text result text.new ≡ written_into table.now condition.now text.old }
{
    match table::judge(table) {
        Ok(()) => write_fit(table, condition, text),
        Err(_) => Err(Unwritten::Unfit),
    }
}

// The same for a table that is one. A first run into a buffer of one byte counts.
fn write_fit(table: &[u8], condition: &[u8], text: &mut [u8]) -> Result<usize, Unwritten>
    requires { judged table.now ≡ good }
    ensures { with_text result text.new ≡ written_into table.now condition.now text.old }
{
    if !condition::is_condition(condition, wide8(table[THREAD_COUNT])) {
        return Err(Unwritten::Unfit);
    }
    let mut none = [0; 1];
    let length = put_text(&mut none, table, condition);
    if text.len() < length {
        return Err(Unwritten::Short(length));
    }
    put_text(text, table, condition);
    text[length..].fill(0);
    Ok(length)
}

// The whole text.
fn put_text(text: &mut [u8], table: &[u8], condition: &[u8]) -> usize
    requires { Fit table.now × Units condition.now }
    ensures { Puts text.old text.new 0 (written_text table.now condition.now) result }
{
    let first = put_bytes(text, 0, b"cells");
    let values = put_values(text, first, table, 0, wide8(table[CELL_COUNT]));
    let feed = put_byte(text, values, b'\n');
    let plains = put_plains(text, feed, table);
    let threads = put_threads(text, plains, table);
    put_condition(text, threads, condition)
}

// The line of the plain cells, where there are any.
fn put_plains(text: &mut [u8], at: usize, table: &[u8]) -> usize
    requires { Fit table.now }
    ensures { Puts text.old text.new at (plains_shown table.now) result }
{
    let cells = wide8(table[CELL_COUNT]);
    let plains = wide8(table[PLAIN_COUNT]);
    if plains == 0 {
        return at;
    }
    let word = put_bytes(text, at, b"plain");
    let values = put_values(text, word, table, cells, plains);
    put_byte(text, values, b'\n')
}

// So many start values, from this one on.
fn put_values(text: &mut [u8], at: usize, table: &[u8], first: usize, count: usize) -> usize
    requires { first + count < 2 ^ 64 }
    ensures { Puts text.old text.new at (values_shown table.now count first) result }
{
    let mut to = at;
    for i in first..first + count {
        let blank = put_byte(text, to, b' ');
        to = put_number(text, blank, table::start_value(table, i));
    }
    to
}

// Every thread with its rows.
fn put_threads(text: &mut [u8], at: usize, table: &[u8]) -> usize
    requires { Fit table.now }
    ensures { Puts text.old text.new at (threads_shown table.now (threads_of table.now) 0) result }
{
    let shape = table::shape(table);
    let mut to = at;
    for thread in 0..wide8(table[THREAD_COUNT]) {
        let behind = put_bytes(text, to, b"thread\n");
        let first = wide16(shape[FIRSTS + thread]);
        let count = wide16(shape[COUNTS + thread]);
        to = put_rows(text, behind, table, first, count);
    }
    to
}

// So many rows, from this one among all rows on.
fn put_rows(text: &mut [u8], at: usize, table: &[u8], first: usize, count: usize) -> usize
    requires { Fit table.now × (first + count < 2 ^ 64) }
    ensures { Puts text.old text.new at (rows_shown table.now count first) result }
{
    let values = wide8(table[CELL_COUNT]) + wide8(table[PLAIN_COUNT]);
    let mut to = at;
    for index in first..first + count {
        to = put_row(text, to, table, values, index);
    }
    to
}
