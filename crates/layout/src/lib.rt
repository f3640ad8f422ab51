// Where each part of the machine's state stands, and how large it is: here alone. The state is four tables that the caller
// lends: vectors (clocks), marks of first sight, values and numbers. A part is found at its constant plus the number of its
// thread, cell, store, register or plain cell; nothing else does arithmetic on positions. A new part goes at the end of its table, past
// all that are there, and the table's size grows by it: then no position that a proof names moves.
#![tactic(auto)]

ghost use Rattle.std.specs.Prelude.{◌≡◌, ◌+◌, ◌*◌, ◌<◌, ◌≤◌};
ghost use Rattle.layout.specs.Wide.{Wide};

pub mod action;
pub mod of_cell;
pub mod of_plain;
pub mod of_run;
pub mod of_store;
pub mod of_thread;
pub mod order;
pub mod races;
pub mod seed;
pub mod slots;

pub const MAX_THREADS: usize = 5;

pub const MAX_CELLS: usize = 4;

pub const MAX_PLAINS: usize = 4;

// loom's: a cell keeps its seven most recent stores.
pub const MAX_ATOMIC_HISTORY: usize = 7;

// Registers of a thread.
pub const REGISTERS: usize = 4;

// The stores of all cells, and the registers of all threads.
pub const STORES: usize = MAX_CELLS * MAX_ATOMIC_HISTORY;

pub const ALL_REGISTERS: usize = MAX_THREADS * REGISTERS;

// How many bytes a path record has, and a trace entry.
pub const RECORD: usize = 16;

// A number that stands for none: no yield yet, no access yet.
pub const NONE: u16 = 65535;

// The mark of a store that a thread has not seen.
pub const UNSEEN: u16 = 65535;

// How many vectors, values and numbers the tables hold: up to the end of the part that stands last.
pub const CLOCKS: usize = of_plain::WRITE_ACCESS + MAX_PLAINS;

pub const VALUES: usize = of_plain::VALUE + MAX_PLAINS;

pub const NUMBERS: usize = of_thread::AWAITS + MAX_THREADS;

pub type Clocks = [[u16; MAX_THREADS]; CLOCKS];

pub type Marks = [[[u16; MAX_THREADS]; MAX_ATOMIC_HISTORY]; MAX_CELLS];

pub type Values = [u64; VALUES];

pub type Numbers = [u16; NUMBERS];

// An atomic access to a cell: whose, to which, by which order.
#[derive(Clone, Copy)]
pub struct Access {
    pub thread: usize,
    pub cell: usize,
    pub order: u8,
}

// An operation on a cell that a thread is about to take: which, by its number, and on which cell.
#[derive(Clone, Copy)]
pub struct Operation {
    pub action: u16,
    pub cell: usize,
}

// The number of a store among those of all cells.
pub fn store_at(cell: usize, slot: usize) -> usize
    requires { (cell < 4) × (slot < 7) }
    ensures { result ≡ 7 * cell + slot }
{
    MAX_ATOMIC_HISTORY * cell + slot
}

// The number of a register among those of all threads.
pub fn register_at(thread: usize, register: usize) -> usize
    requires { (thread ≤ 255) × (register ≤ 255) }
    ensures { result ≡ 4 * thread + register }
{
    REGISTERS * thread + register
}

// A byte, and a number of two bytes, as one that can count and be an index; a byte as a number of two.
pub fn wide8(x: u8) -> usize
    ensures { Wide 255 x result }
{
    x as usize
}

pub fn wide16(x: u16) -> usize
    ensures { Wide 65535 x result }
{
    x as usize
}

pub fn short8(x: u8) -> u16
    ensures { Wide 255 x result }
{
    x as u16
}

// The same as numbers of eight bytes.
pub fn long8(x: u8) -> u64
    ensures { result ≡ x }
{
    x as u64
}

pub fn long16(x: u16) -> u64
    ensures { result ≡ x }
{
    x as u64
}
