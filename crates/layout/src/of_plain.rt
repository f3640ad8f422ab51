// What belongs to a plain cell, at its constant plus the cell's number.
use crate::of_store::SYNC;
use crate::of_thread::REGISTER;
use crate::{ALL_REGISTERS, MAX_PLAINS, STORES};

// clocks: closures of all reads and of all writes.
pub const READ_ACCESS: usize = SYNC + STORES;

pub const WRITE_ACCESS: usize = READ_ACCESS + MAX_PLAINS;

// values.
pub const VALUE: usize = REGISTER + ALL_REGISTERS;
