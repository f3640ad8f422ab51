// What belongs to a thread, at its constant plus the thread's number. Parts stand one behind the other, each where the one before it in
// its table ends.
use crate::of_run::SKIPPING;
use crate::{MAX_THREADS, STORES, of_store};

// clocks: what it has observed, its latest release fence, its schedule vector.
pub const CAUSALITY: usize = 0;

pub const RELEASED: usize = CAUSALITY + MAX_THREADS;

pub const SCHEDULE: usize = RELEASED + MAX_THREADS;

// numbers: state, next row, rows begun, yields, version at the last yield, pending operation and its cell, how far the
// present row is, and, behind what a run has one of, whom a blocked thread waits for.
pub const STATE: usize = 0;

pub const NEXT_ROW: usize = STATE + MAX_THREADS;

pub const ROWS: usize = NEXT_ROW + MAX_THREADS;

pub const YIELDS: usize = ROWS + MAX_THREADS;

pub const LAST_YIELD: usize = YIELDS + MAX_THREADS;

pub const OPERATION: usize = LAST_YIELD + MAX_THREADS;

pub const OPERATES_ON: usize = OPERATION + MAX_THREADS;

pub const PHASE: usize = OPERATES_ON + MAX_THREADS;

pub const AWAITS: usize = SKIPPING + 1;

// values, behind those of all stores, at this plus a register's number.
pub const REGISTER: usize = of_store::VALUE + STORES;
