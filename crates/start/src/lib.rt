// The start of an execution: document 01's "Start of each execution".
#![tactic(auto)]

ghost use Rattle.std.specs.Prelude.{◌≡◌, ◌<◌, ◌≤◌, get_or};
ghost use Rattle.rules.specs.Machine as machine;
ghost use Rattle.rules.specs.State as rules;
ghost use Rattle.rules.specs.Table.{threads_of, cells_of, plains_of};
ghost use Rattle.layout.specs.Tables.{state};

use layout::of_cell::{ACCESS_BRANCH, NON_LOAD_BRANCH, UNSYNC_MUT_AT};
use layout::of_run::EXPLORING;
use layout::of_thread::{CAUSALITY, LAST_YIELD, STATE};
use layout::order::RELEASE;
use layout::{
    Access, CLOCKS, Clocks, MAX_ATOMIC_HISTORY, MAX_CELLS, MAX_THREADS, Marks, NONE, NUMBERS,
    Numbers, UNSEEN, VALUES, Values, of_plain, wide16,
};
use synchronize::join_into;
use table::{CELLS, PLAINS, Shape, THREADS};
use thread::RUNNABLE;

// Lays the tables anew, whatever they held, as a table of this shape has them at the start: cells and plain cells made by thread 0, then all
// threads runnable.
pub fn start(
    table: &[u8],
    shape: &Shape,
    clocks: &mut Clocks,
    marks: &mut Marks,
    values: &mut Values,
    numbers: &mut Numbers,
    exploring: bool,
)
    requires { (get_or shape.now 0 0 ≤ 5) × (get_or shape.now 1 0 ≤ 4) × (get_or shape.now 12 0 ≤ 4) }
    ensures { (p : machine.Program) → p.table ≡ table.now → p.exploring ≡ exploring → threads_of p.table ≡ get_or shape.now 0 0 → cells_of p.table ≡ get_or shape.now 1 0 → plains_of p.table ≡ get_or shape.now 12 0 → state clocks.new marks.new values.new numbers.new ≡ machine.start p }
{
    clear(clocks, marks, values, numbers, exploring);
    clocks[CAUSALITY] = [1, 0, 0, 0, 0];
    let cells = wide16(shape[CELLS]);
    make_cells(table, clocks, marks, values, numbers, cells);
    let plains = wide16(shape[PLAINS]);
    make_plains(table, clocks, values, cells, plains);
    start_threads(clocks, numbers, wide16(shape[THREADS]));
}

// Nothing is left over from the execution before.
fn clear(
    clocks: &mut Clocks,
    marks: &mut Marks,
    values: &mut Values,
    numbers: &mut Numbers,
    exploring: bool,
)
    ensures { state clocks.new marks.new values.new numbers.new ≡ machine.blank exploring }
{
    *clocks = [[0; MAX_THREADS]; CLOCKS];
    *marks = [[[UNSEEN; MAX_THREADS]; MAX_ATOMIC_HISTORY]; MAX_CELLS];
    *values = [0; VALUES];
    *numbers = [0; NUMBERS];
    clear_yields(numbers);
    clear_branches(numbers);
    numbers[EXPLORING] = u16::from(exploring);
}

// The cells, in order.
fn make_cells(
    table: &[u8],
    clocks: &mut Clocks,
    marks: &mut Marks,
    values: &mut Values,
    numbers: &mut Numbers,
    cells: usize,
)
    requires { cells ≤ 4 }
    ensures { state clocks.new marks.new values.new numbers.new ≡ machine.cells_made table.now (state clocks.old marks.old values.old numbers.old) cells 0 }
{
    for cell in 0..cells {
        make_cell(table, clocks, marks, values, numbers, cell);
    }
}

// A cell takes thread 0's vector as its exclusive one, so that every access must come after its making, and a Release store of
// its start value. Which order that store has should not matter: who accesses the cell has its making in its causality. Both are
// as in loom's State::new.
fn make_cell(
    table: &[u8],
    clocks: &mut Clocks,
    marks: &mut Marks,
    values: &mut Values,
    numbers: &mut Numbers,
    cell: usize,
)
    requires { cell < 4 }
    ensures { state clocks.new marks.new values.new numbers.new ≡ machine.cell_made table.now (state clocks.old marks.old values.old numbers.old) cell }
{
    join_into(clocks, UNSYNC_MUT_AT + cell, CAUSALITY);
    let value = table::start_value(table, cell);
    let access = Access {
        thread: 0,
        cell,
        order: RELEASE,
    };
    atomic::store(
        clocks,
        marks,
        values,
        numbers,
        access,
        [0; MAX_THREADS],
        value,
    );
}

// The plain cells, in order.
fn make_plains(table: &[u8], clocks: &mut Clocks, values: &mut Values, cells: usize, plains: usize)
    requires { (cells ≤ 4) × (plains ≤ 4) }
    ensures { (marks : rules.Marks) (numbers : rules.Numbers) → cells_of table.now ≡ cells → state clocks.new marks values.new numbers ≡ machine.plains_made table.now (state clocks.old marks values.old numbers) plains 0 }
{
    for plain in 0..plains {
        make_plain(table, clocks, values, plain, cells);
    }
}

// A plain cell is written by thread 0. Its start value stands behind those of the cells.
fn make_plain(table: &[u8], clocks: &mut Clocks, values: &mut Values, plain: usize, cells: usize)
    requires { (cells ≤ 4) × (plain < 4) }
    ensures { (marks : rules.Marks) (numbers : rules.Numbers) → cells_of table.now ≡ cells → state clocks.new marks values.new numbers ≡ machine.plain_made table.now (state clocks.old marks values.old numbers) plain }
{
    // No thread has read or written before, so there is nothing to race with.
    let _ = plain::track_write(clocks, 0, plain);
    values[of_plain::VALUE + plain] = table::start_value(table, cells + plain);
}

// Thread 0 is at (2,0,0,0,0), each other has seen its first version and is at 1 itself.
fn start_threads(clocks: &mut Clocks, numbers: &mut Numbers, threads: usize)
    requires { threads ≤ 5 }
    ensures { (marks : rules.Marks) (values : rules.Values) → state clocks.new marks values numbers.new ≡ machine.threads_started (state clocks.old marks values numbers.old) threads 0 }
{
    for t in 0..threads {
        clocks[CAUSALITY + t] = first_causality(t);
        numbers[STATE + t] = RUNNABLE;
    }
}

// What a thread has observed as it starts.
fn first_causality(thread: usize) -> [u16; MAX_THREADS]
    requires { thread < 5 }
    ensures { result ≡ machine.first_causality thread }
{
    match thread {
        0 => [2, 0, 0, 0, 0],
        1 => [1, 1, 0, 0, 0],
        2 => [1, 0, 1, 0, 0],
        3 => [1, 0, 0, 1, 0],
        _ => [1, 0, 0, 0, 1],
    }
}

// No thread has yielded yet.
fn clear_yields(numbers: &mut Numbers)
    ensures { numbers.new ≡ machine.for_threads machine.no_yield 5 0 numbers.old }
{
    for t in 0..MAX_THREADS {
        numbers[LAST_YIELD + t] = NONE;
    }
}

// No cell has a last access.
fn clear_branches(numbers: &mut Numbers)
    ensures { numbers.new ≡ machine.for_threads machine.no_access 4 0 numbers.old }
{
    for cell in 0..MAX_CELLS {
        numbers[ACCESS_BRANCH + cell] = NONE;
        numbers[NON_LOAD_BRANCH + cell] = NONE;
    }
}
