// What an execution has one of.
use crate::of_store::SEQ_CST;
use crate::of_thread::SCHEDULE;
use crate::{MAX_THREADS, STORES};

// clocks: the vector that SeqCst fences share.
pub const SEQ_CST_CAUSALITY: usize = SCHEDULE + MAX_THREADS;

// numbers: the thread that runs, rows begun, whether exploring and skipping.
pub const ACTIVE_THREAD: usize = SEQ_CST + STORES;

pub const ROWS_BEGUN: usize = ACTIVE_THREAD + 1;

pub const EXPLORING: usize = ROWS_BEGUN + 1;

pub const SKIPPING: usize = EXPLORING + 1;
