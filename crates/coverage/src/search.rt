// Rows of the table that matter to what a run covers: those that switch exploring on or off, and those that store.
ghost use Rattle.std.specs.Prelude.{◌≤◌, ◌<◌, ◌≡◌};
ghost use Rattle.decode.specs.Ops.{decoded_of};
ghost use Rattle.coverage.specs.Covered.{first_switch, first_in_thread, store_count, stores_in, one_if, stores_to};
ghost use Rattle.coverage.specs.Covered.{switches as switches_to};

use decode::Op;
use layout::{MAX_THREADS, wide16};
use table::{COUNTS, Shape};

// A row of the table, by its thread and its number there.
#[derive(Clone, Copy)]
pub struct RowAt {
    pub thread: usize,
    pub row: usize,
}

// The first row, thread by thread, that switches exploring on, or off.
pub fn first_switch(table: &[u8], on: bool) -> Option<RowAt>
    ensures { result ≡ first_switch table.now on }
{
    let shape = table::shape(table);
    for thread in 0..MAX_THREADS {
        if let Some(row) = first_in(table, &shape, thread, on) {
            return Some(RowAt { thread, row });
        }
    }
    None
}

// The first such row of a thread.
fn first_in(table: &[u8], shape: &Shape, thread: usize, on: bool) -> Option<usize>
    requires { thread < 5 }
    ensures { result ≡ first_in_thread table.now shape.now on thread }
{
    let count = wide16(shape[COUNTS + thread]);
    for row in 0..count {
        if switches(table::row_of(table, shape, thread, row as u16), on) {
            return Some(row);
        }
    }
    None
}

// Whether a row switches exploring on, or off.
fn switches(row: Option<Op>, on: bool) -> bool
    ensures { result ≡ switches_to on (decoded_of row) }
{
    let Some(op) = row else {
        return false;
    };
    match op {
        Op::ExploreState => on,
        Op::Critical => !on,
        Op::SkipBranch => !on,
        _ => false,
    }
}

// How many rows of all threads may store to a cell.
pub fn stores(table: &[u8], cell: u64) -> u64
    ensures { result ≡ store_count table.now cell }
{
    let shape = table::shape(table);
    let mut sum = 0;
    for thread in 0..MAX_THREADS {
        sum += stores_in(table, &shape, thread, cell);
    }
    sum
}

// How many rows of one thread may.
fn stores_in(table: &[u8], shape: &Shape, thread: usize, cell: u64) -> u64
    requires { thread < 5 }
    ensures { (result ≡ stores_in table.now shape.now cell thread) × (result ≤ 65535) }
{
    let count = wide16(shape[COUNTS + thread]);
    let mut sum = 0;
    for row in 0..count {
        sum += may_store(table::row_of(table, shape, thread, row as u16), cell);
    }
    sum
}

// 1 where a row may store to this cell, else 0.
fn may_store(row: Option<Op>, cell: u64) -> u64
    ensures { result ≡ one_if (stores_to cell (decoded_of row)) }
{
    let Some(op) = row else {
        return 0;
    };
    match op {
        Op::Store { cell: named, .. } => one_if(named as u64 == cell),
        Op::StoreRegister { cell: named, .. } => one_if(named as u64 == cell),
        Op::Rmw { cell: named, .. } => one_if(named as u64 == cell),
        _ => 0,
    }
}

fn one_if(yes: bool) -> u64
    ensures { result ≡ one_if yes }
{
    if yes { 1 } else { 0 }
}
