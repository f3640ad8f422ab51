// What belongs to a store, at its constant plus the store's number. Its marks stand in a table of their own.
use crate::of_cell::{LAST_NON_LOAD_ACCESS, NON_LOAD_BRANCH};
use crate::{MAX_CELLS, STORES};

// clocks: the thread's causality as it stored, the place in modification order, what an acquiring load joins.
pub const HAPPENS_BEFORE: usize = LAST_NON_LOAD_ACCESS + MAX_CELLS;

pub const MODIFICATION_ORDER: usize = HAPPENS_BEFORE + STORES;

pub const SYNC: usize = MODIFICATION_ORDER + STORES;

// values.
pub const VALUE: usize = 0;

// numbers: whether it was SeqCst.
pub const SEQ_CST: usize = NON_LOAD_BRANCH + MAX_CELLS;
