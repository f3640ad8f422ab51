// What belongs to a cell, at its constant plus the cell's number.
use crate::of_run::SEQ_CST_CAUSALITY;
use crate::of_thread::PHASE;
use crate::{MAX_CELLS, MAX_THREADS};

// clocks: closures of all loads, unsynchronised loads, stores and exclusive changes.
pub const LOADED_AT: usize = SEQ_CST_CAUSALITY + 1;

pub const UNSYNC_LOADED_AT: usize = LOADED_AT + MAX_CELLS;

pub const STORED_AT: usize = UNSYNC_LOADED_AT + MAX_CELLS;

pub const UNSYNC_MUT_AT: usize = STORED_AT + MAX_CELLS;

// clocks: the schedule vector of the last access, and of the last that was no load.
pub const LAST_ACCESS: usize = UNSYNC_MUT_AT + MAX_CELLS;

pub const LAST_NON_LOAD_ACCESS: usize = LAST_ACCESS + MAX_CELLS;

// numbers: how many stores there were, and the branches of the two accesses.
pub const COUNT: usize = PHASE + MAX_THREADS;

pub const ACCESS_BRANCH: usize = COUNT + MAX_CELLS;

pub const NON_LOAD_BRANCH: usize = ACCESS_BRANCH + MAX_CELLS;
