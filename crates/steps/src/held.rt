// What the cells and the registers hold after some of the steps: a cell's newest value, how many stores it had and which step
// wrote each of its seven slots; a thread's registers and its next row; which step wrote what a plain cell holds.
ghost use Rattle.std.specs.Prelude.{◌≡◌, cond, ◌<◌};
ghost use Rattle.change.specs.Changes.{change_meant};
ghost use Rattle.decode.specs.Ops.{op_of, InRange};
ghost use Rattle.layout.specs.Slots.{Next, Newest};
ghost use Rattle.rules.specs.Vector.{one_more};
ghost use Rattle.steps.specs.Holds as holds;

use change::Change;
use decode::Op;
use layout::{
    ALL_REGISTERS, MAX_ATOMIC_HISTORY, MAX_CELLS, MAX_PLAINS, MAX_THREADS, REGISTERS, STORES,
    register_at, store_at, wide8,
};
use vv::LARGEST;

// All of it in one table, each part behind the one before: the writers of all slots, the counts, the newest values, the registers, the
// next rows, the writers of plain cells.
pub type Held = [u64; HELD];

const COUNT: usize = STORES;

const NEWEST: usize = COUNT + MAX_CELLS;

const REGISTER: usize = NEWEST + MAX_CELLS;

const NEXT: usize = REGISTER + ALL_REGISTERS;

const PLAIN_WRITER: usize = NEXT + MAX_THREADS;

const HELD: usize = PLAIN_WRITER + MAX_PLAINS;

// Before the first step: each cell has had a store of its start value, which no step wrote.
pub fn start(table: &[u8]) -> Held
    ensures { result ≡ holds.held_at_start table.now }
{
    let mut held = [0; HELD];
    for cell in 0..MAX_CELLS {
        store(&mut held, cell, table::start_value(table, cell), 0);
    }
    held
}

// What is held after the first `n` steps.
pub fn after(table: &[u8], trace: &[u8], n: usize) -> Held
    ensures { result ≡ holds.held_after table.now trace.now n }
{
    let mut held = start(table);
    for i in 0..n {
        take(table, trace, &mut held, i);
    }
    held
}

// The step that wrote what a slot of a cell holds, counted from 1; 0 for the start value, as the table of numbers has it: an Option would
// be no plainer.
pub fn writer(held: &Held, cell: usize, slot: u8) -> u64
    ensures { result ≡ holds.held held.now (holds.writer cell slot) }
{
    let s = wide8(slot);
    if cell < MAX_CELLS {
        if s < MAX_ATOMIC_HISTORY {
            return held[store_at(cell, s)];
        }
    }
    0
}

// The newest value of a cell.
pub fn newest(held: &Held, cell: usize) -> u64
    ensures { result ≡ holds.held held.now (holds.newest_value cell) }
{
    if cell < MAX_CELLS {
        return held[NEWEST + cell];
    }
    0
}

pub fn register(held: &Held, thread: u8, register: usize) -> u64
    ensures { result ≡ holds.held held.now (holds.register thread register) }
{
    let t = wide8(thread);
    if t < MAX_THREADS {
        if register < REGISTERS {
            return register_of(held, t, register);
        }
    }
    0
}

// The same, of a thread and a register that there are.
fn register_of(held: &Held, thread: usize, register: usize) -> u64
    requires { (thread < 5) × (register < 4) }
    ensures { result ≡ holds.held held.now (holds.register thread register) }
{
    held[REGISTER + register_at(thread, register)]
}

// The row that a thread is at, where it has not ended.
pub fn next_row(held: &Held, thread: u8) -> u64
    ensures { result ≡ holds.held held.now (holds.next_row thread) }
{
    let t = wide8(thread);
    if t < MAX_THREADS {
        return held[NEXT + t];
    }
    0
}

// The step that wrote what a plain cell holds, counted from 1; 0 for the start value.
pub fn plain_writer(held: &Held, plain: usize) -> u64
    ensures { result ≡ holds.held held.now (holds.plain_writer plain) }
{
    if plain < MAX_PLAINS {
        return held[PLAIN_WRITER + plain];
    }
    0
}

// What step `i` changes. A row that is not refused has a thread, cells and registers that there are: nothing below tests them again.
pub fn take(table: &[u8], trace: &[u8], held: &mut Held, i: usize)
    ensures { held.new ≡ holds.step_taken table.now trace.now i held.old }
{
    let Some(op) = crate::operation(table, trace, i) else {
        return;
    };
    let thread = wide8(crate::thread(trace, i));
    let next = next_of(held, thread, crate::row(trace, i), op);
    go_on(held, thread, next);
    act(held, thread, op, crate::value(trace, i), i as u64 + 1);
}

// The row that a thread goes on with.
fn next_of(held: &Held, thread: usize, row: u8, op: Op) -> u64
    requires { (thread < 5) × InRange (op_of op) }
    ensures { result ≡ holds.next_of held.now thread row (op_of op) }
{
    let next = row as u64 + 1;
    match op {
        Op::Jump { target } => target as u64,
        Op::JumpIf {
            register,
            a,
            target,
        } => after_jump(
            register_of(held, thread, register) == a,
            target as u64,
            next,
        ),
        Op::JumpUnless {
            register,
            a,
            target,
        } => after_jump(
            register_of(held, thread, register) == a,
            next,
            target as u64,
        ),
        _ => next,
    }
}

// Which of two rows comes next, by a test.
fn after_jump(equal: bool, then: u64, other: u64) -> u64
    ensures { result ≡ cond equal then other }
{
    if equal {
        return then;
    }
    other
}

fn go_on(held: &mut Held, thread: usize, next: u64)
    requires { thread < 5 }
    ensures { held.new ≡ holds.with_held held.old (holds.next_row thread) next }
{
    held[NEXT + thread] = next;
}

// What a row of this thread does, with the value of its trace entry.
fn act(held: &mut Held, thread: usize, op: Op, value: u64, step: u64)
    requires { (thread < 5) × InRange (op_of op) }
    ensures { held.new ≡ holds.acted held.old thread value step (op_of op) }
{
    match op {
        Op::Load { register, .. } => put(held, thread, register, value),
        Op::Store { cell, .. } => store(held, cell, value, step),
        Op::StoreRegister { cell, .. } => store(held, cell, value, step),
        Op::Rmw {
            cell,
            change,
            register,
            ..
        } => rmw(held, thread, cell, change, register, value, step),
        Op::UnsyncLoad { register, .. } => put(held, thread, register, value),
        Op::WithMut {
            cell,
            change,
            register,
        } => with_mut(held, thread, cell, change, register, step),
        Op::Spurious { register } => put(held, thread, register, value),
        Op::PlainRead { register, .. } => put(held, thread, register, value),
        Op::PlainWrite { plain, .. } => write(held, plain, step),
        _ => {}
    }
}

// Puts a value in a register.
fn put(held: &mut Held, thread: usize, register: usize, value: u64)
    requires { (thread < 5) × (register < 4) }
    ensures { held.new ≡ holds.with_held held.old (holds.register thread register) value }
{
    held[REGISTER + register_at(thread, register)] = value;
}

// Notes the step that wrote a plain cell.
fn write(held: &mut Held, plain: usize, step: u64)
    requires { plain < 4 }
    ensures { held.new ≡ holds.with_held held.old (holds.plain_writer plain) step }
{
    held[PLAIN_WRITER + plain] = step;
}

// A store takes the cell's next slot.
fn store(held: &mut Held, cell: usize, value: u64, step: u64)
    requires { cell < 4 }
    ensures { held.new ≡ holds.store_held held.old cell value step }
{
    let count = held[COUNT + cell];
    let at = store_at(cell, next_slot(count));
    held[at] = step;
    held[COUNT + cell] = one_more(count);
    held[NEWEST + cell] = value;
}

// The slot that the next store takes, and that of the newest, by how many there were. What is promised here holds for any table of
// numbers, so of a count past 16 bits too, which none that is read back from a trace is: the functions of `layout::slots` and
// `vv::one_more` take 16 bits, and a larger count that is cut to them has another slot and another successor.
fn next_slot(count: u64) -> usize
    ensures { Next count result }
{
    count as usize % MAX_ATOMIC_HISTORY
}

fn newest_slot(count: u64) -> usize
    ensures { Newest count result }
{
    (count as usize % MAX_ATOMIC_HISTORY + (MAX_ATOMIC_HISTORY - 1)) % MAX_ATOMIC_HISTORY
}

// A count stays where it is largest.
fn one_more(count: u64) -> u64
    ensures { result ≡ one_more count }
{
    if count < LARGEST as u64 {
        return count + 1;
    }
    count
}

// The value read goes into the register; a change that succeeds is a store.
fn rmw(
    held: &mut Held,
    thread: usize,
    cell: usize,
    change: Change,
    register: usize,
    read: u64,
    step: u64,
)
    requires { (thread < 5) × (cell < 4) × (register < 4) }
    ensures { held.new ≡ holds.rmw_held held.old thread cell (change_meant change) register read step }
{
    put(held, thread, register, read);
    if let Some(value) = change::apply(change, read) {
        store(held, cell, value, step);
    }
}

// The same for an exclusive change, which reads the newest store and, if it succeeds, writes over it.
fn with_mut(held: &mut Held, thread: usize, cell: usize, change: Change, register: usize, step: u64)
    requires { (thread < 5) × (cell < 4) × (register < 4) }
    ensures { held.new ≡ holds.exclusive_held held.old thread cell (change_meant change) register step }
{
    let before = held[NEWEST + cell];
    put(held, thread, register, before);
    if let Some(value) = change::apply(change, before) {
        write_over(held, cell, value, step);
    }
}

// Writes over the newest store of a cell.
fn write_over(held: &mut Held, cell: usize, value: u64, step: u64)
    requires { cell < 4 }
    ensures { held.new ≡ holds.written_over held.old cell value step }
{
    let at = store_at(cell, newest_slot(held[COUNT + cell]));
    held[at] = step;
    held[NEWEST + cell] = value;
}
