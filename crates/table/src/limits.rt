// The sizes of a table, here alone. Threads and cells have their limits in crate layout.
use layout::{MAX_CELLS, MAX_PLAINS, MAX_THREADS};

// The start values of the largest table: those of the cells, then those of the plain cells.
pub const MAX_VALUES: usize = MAX_CELLS + MAX_PLAINS;

// The rows of one thread, and of the largest table.
pub const MAX_ROWS: usize = 64;

pub const ALL_ROWS: usize = MAX_THREADS * MAX_ROWS;

// Where the header counts the threads, the cells, the rows of each thread, and the plain cells.
pub const THREAD_COUNT: usize = 0;

pub const CELL_COUNT: usize = THREAD_COUNT + 1;

pub const ROW_COUNTS: usize = CELL_COUNT + 1;

// Those of the threads behind the first.
pub const COUNT_OF_1: usize = ROW_COUNTS + 1;

pub const COUNT_OF_2: usize = ROW_COUNTS + 2;

pub const COUNT_OF_3: usize = ROW_COUNTS + 3;

pub const COUNT_OF_4: usize = ROW_COUNTS + 4;

// With the number of threads added: where it counts the rows of the last.
pub const COUNT_OF_LAST: usize = ROW_COUNTS - 1;

pub const PLAIN_COUNT: usize = ROW_COUNTS + MAX_THREADS;

// In bytes: the header, a cell's start value, a row.
pub const HEADER_BYTES: usize = PLAIN_COUNT + 1;

pub const VALUE_BYTES: usize = 8;

pub const ROW_BYTES: usize = 24;

// The bytes of the largest table.
pub const TABLE_BYTES: usize = HEADER_BYTES + VALUE_BYTES * MAX_VALUES + ROW_BYTES * ALL_ROWS;
