// Where an entry has what: document 01's "thread, row, opcode, slot .., offer mask .., three zeros, u64 value".
pub const THREAD: usize = 0;

pub const ROW: usize = 1;

pub const OPCODE: usize = 2;

pub const SLOT: usize = 3;

pub const MASK: usize = 4;

pub const VALUE: usize = 8;
