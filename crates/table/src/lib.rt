// The table: which bytes are one, which row of one is the first bad one, and what a row says.
// Each promise is an equation with the definition in rules (Table).
#![tactic(auto)]

ghost use Rattle.std.specs.Prelude.{◌≡◌, ◌+◌, ◌<◌, ◌≤◌, ◌^◌, length, get_or, unwrap_or, IfSome};
ghost use Rattle.rules.specs.Table as rules;
ghost use Rattle.rules.specs.Table.{header_bytes, row_bytes, header_fine, count_fine, counts_fine, counts_of, first_bad, judged, shape_of, start_value, row_from, op_at, is_fine};
ghost use Rattle.decode.specs.Ops.{row_meant, room_meant};
ghost use Rattle.table.specs.Answers.{judged_of, room_in, OpAt, PlaceOf};

pub mod fields;
pub mod limits;

pub use decode::opcode;
use decode::opcodes::NO_OPCODE;
use decode::{Op, Room, Row, is_row, row_decoded};
use fields::{A, B, FAILURE, KIND, OBJECT, ORDER, REGISTER, TARGET};
use layout::{MAX_CELLS, MAX_PLAINS, MAX_THREADS, short8, wide8, wide16};
use limits::{
    ALL_ROWS, CELL_COUNT, COUNT_OF_1, COUNT_OF_2, COUNT_OF_3, COUNT_OF_4, HEADER_BYTES, MAX_ROWS,
    MAX_VALUES, PLAIN_COUNT, ROW_BYTES, ROW_COUNTS, THREAD_COUNT, VALUE_BYTES,
};

// A table's shape: threads, cells, the five row counts, the number of each thread's first row among all rows, and plain cells. Its
// first seven numbers are the header's, in their places.
pub type Shape = [u16; SHAPE];

pub const THREADS: usize = THREAD_COUNT;

pub const CELLS: usize = CELL_COUNT;

pub const COUNTS: usize = ROW_COUNTS;

pub const FIRSTS: usize = COUNTS + MAX_THREADS;

pub const PLAINS: usize = FIRSTS + MAX_THREADS;

pub const SHAPE: usize = PLAINS + 1;

// Where a shape has the last thread's row count and first row, whose sum is the number of all rows.
pub const LAST_COUNT: usize = COUNTS + MAX_THREADS - 1;

pub const LAST_FIRST: usize = FIRSTS + MAX_THREADS - 1;

// Why bytes are no table: their header or length is bad, or else a row, of which this is the first in byte order.
#[derive(Clone, Copy)]
pub enum BadTable {
    Header,
    Row { thread: usize, row: usize },
}

// Whether these bytes are a table, and if not, what is wrong first. The header and the length are judged before any row.
pub fn judge(table: &[u8]) -> Result<(), BadTable>
    ensures { judged_of result ≡ judged table.now }
{
    if !header_fine(table) {
        return Err(BadTable::Header);
    }
    let mut first = 0;
    for thread in 0..MAX_THREADS {
        let count = wide8(table[ROW_COUNTS + thread]);
        if let Some(row) = first_bad(table, first, count) {
            return Err(BadTable::Row { thread, row });
        }
        first += count;
    }
    Ok(())
}

// The shape; zeros where the table is shorter than a header.
pub fn shape(table: &[u8]) -> Shape
    ensures { result ≡ shape_of table.now }
{
    if table.len() < HEADER_BYTES {
        return [0; SHAPE];
    }
    let threads = short8(table[THREAD_COUNT]);
    let cells = short8(table[CELL_COUNT]);
    let n0 = short8(table[ROW_COUNTS]);
    let n1 = short8(table[COUNT_OF_1]);
    let n2 = short8(table[COUNT_OF_2]);
    let n3 = short8(table[COUNT_OF_3]);
    let n4 = short8(table[COUNT_OF_4]);
    let plains = short8(table[PLAIN_COUNT]);
    let first2 = n0 + n1;
    let first3 = first2 + n2;
    let first4 = first3 + n3;
    [
        threads, cells, n0, n1, n2, n3, n4, 0, n0, first2, first3, first4, plains,
    ]
}

// The start value of this number, those of the plain cells behind those of the cells; 0 where the table has none.
pub fn start_value(table: &[u8], i: usize) -> u64
    ensures { result ≡ start_value table.now i }
{
    if i < MAX_VALUES {
        let at = HEADER_BYTES + VALUE_BYTES * i;
        if at + VALUE_BYTES <= table.len() {
            return little::u64_at(table, at);
        }
    }
    0
}

// What this thread's row with this number does, in a table of this shape.
pub fn row_of(table: &[u8], shape: &Shape, thread: usize, row: u16) -> Option<Op>
    requires { thread < 5 }
    ensures { OpAt table.now (room_in shape.now thread row) (get_or shape.now (7 + thread) 0 + row) result }
{
    let threads = wide16(shape[THREADS]);
    let cells = wide16(shape[CELLS]);
    let plains = wide16(shape[PLAINS]);
    let rows = wide16(shape[COUNTS + thread]);
    let own = wide16(row);
    let room = Room {
        threads,
        cells,
        plains,
        rows,
        row: own,
    };
    let first = wide16(shape[FIRSTS + thread]);
    op_at(table, room, first + own)
}

// What the row of this number among all rows does, in this room. Refused where the table does not hold it, and where there are
// more threads, cells or plain cells than there can be.
pub fn op_at(table: &[u8], room: Room, index: usize) -> Option<Op>
    ensures { OpAt table.now (room_meant room) index result }
{
    let at = place_of(table, room, index)?;
    row_decoded(row_from(table, at), room)
}

// Whether that row says something.
fn is_fine(table: &[u8], room: Room, index: usize) -> bool
    ensures { result ≡ is_fine (op_at table.now (room_meant room) index) }
{
    let Some(at) = place_of(table, room, index) else {
        return false;
    };
    is_row(row_from(table, at), room)
}

// Where the row of this number among all rows stands, if the table holds it.
fn place_of(table: &[u8], room: Room, index: usize) -> Option<usize>
    ensures { PlaceOf table.now (room_meant room) index result }
{
    let threads = room.threads;
    let cells = room.cells;
    let plains = room.plains;
    if threads <= MAX_THREADS {
        if cells <= MAX_CELLS {
            if plains <= MAX_PLAINS {
                if index < ALL_ROWS {
                    let at = HEADER_BYTES + VALUE_BYTES * (cells + plains) + ROW_BYTES * index;
                    if at + ROW_BYTES <= table.len() {
                        return Some(at);
                    }
                }
            }
        }
    }
    None
}

// The row of this number among all rows of a table with so many start values; where the table does not hold it, one that no opcode has.
pub fn row_at(table: &[u8], values: usize, index: usize) -> Row
    ensures { row_meant result ≡ rules.row_at table.now values index }
{
    if values <= MAX_VALUES {
        if index < ALL_ROWS {
            let at = HEADER_BYTES + VALUE_BYTES * values + ROW_BYTES * index;
            if at + ROW_BYTES <= table.len() {
                return row_from(table, at);
            }
        }
    }
    Row {
        opcode: NO_OPCODE,
        object: 0,
        order: 0,
        failure: 0,
        kind: 0,
        register: 0,
        target: 0,
        a: 0,
        b: 0,
    }
}

// The row whose first byte is this one.
fn row_from(table: &[u8], at: usize) -> Row
    requires { at + row_bytes ≤ length table.now }
    ensures { row_meant result ≡ row_from table.now at }
{
    Row {
        opcode: table[at],
        object: table[at + OBJECT],
        order: table[at + ORDER],
        failure: table[at + FAILURE],
        kind: table[at + KIND],
        register: table[at + REGISTER],
        target: little::u16_at(table, at + TARGET),
        a: little::u64_at(table, at + A),
        b: little::u64_at(table, at + B),
    }
}

// Whether header and length are those of a table. The tests are of numbers alone, so that none has to wait for another.
fn header_fine(table: &[u8]) -> bool
    ensures { result ≡ header_fine table.now }
{
    if table.len() < HEADER_BYTES {
        return false;
    }
    let threads = wide8(table[THREAD_COUNT]);
    let cells = wide8(table[CELL_COUNT]);
    let plains = wide8(table[PLAIN_COUNT]);
    let s = shape(table);
    let rows = wide16(s[LAST_COUNT]) + wide16(s[LAST_FIRST]);
    let size = HEADER_BYTES + VALUE_BYTES * (cells + plains) + ROW_BYTES * rows;
    ((1 <= threads) & (threads <= MAX_THREADS))
        & ((1 <= cells) & (cells <= MAX_CELLS))
        & counts_fine(table, threads)
        & (plains <= MAX_PLAINS)
        & (table.len() == size)
}

// Whether no thread has too many rows, and none has any past the threads.
fn counts_fine(table: &[u8], threads: usize) -> bool
    requires { header_bytes ≤ length table.now }
    ensures { result ≡ counts_fine threads 0 (counts_of table.now) }
{
    for thread in 0..MAX_THREADS {
        let count = wide8(table[ROW_COUNTS + thread]);
        if !count_fine(thread, count, threads) {
            return false;
        }
    }
    true
}

// Whether one thread has not too many rows, and none where it is past the threads.
pub fn count_fine(thread: usize, count: usize, threads: usize) -> bool
    ensures { result ≡ count_fine threads thread count }
{
    if thread < threads {
        return count <= MAX_ROWS;
    }
    count == 0
}

// The first row of a thread that is bad, which the definition numbers by the row count where none is. The thread's first row
// has the number `first` among all rows.
fn first_bad(table: &[u8], first: usize, count: usize) -> Option<usize>
    requires { (header_bytes ≤ length table.now) × (first + count < 2 ^ 64) }
    ensures is { unwrap_or result count ≡ first_bad table.now first count }
    ensures within { IfSome result (λ row. row < count) }
{
    for i in 0..count {
        let room = room_of(table, count, i);
        if !is_fine(table, room, first + i) {
            return Some(i);
        }
    }
    None
}

// What the row of this number, in a thread of so many rows, may name.
fn room_of(table: &[u8], rows: usize, row: usize) -> Room
    requires { header_bytes ≤ length table.now }
    ensures { room_meant result ≡ rules.room_of table.now rows row }
{
    Room {
        threads: wide8(table[THREAD_COUNT]),
        cells: wide8(table[CELL_COUNT]),
        plains: wide8(table[PLAIN_COUNT]),
        rows,
        row,
    }
}
