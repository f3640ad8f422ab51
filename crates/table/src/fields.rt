// Where the fields of a row stand, in bytes from its first. Each up to the jump target is one byte, so that their places are their
// numbers too. The object is the cell, the plain cell or the thread.
pub const OPCODE: usize = 0;

pub const OBJECT: usize = 1;

pub const ORDER: usize = 2;

pub const FAILURE: usize = 3;

pub const KIND: usize = 4;

pub const REGISTER: usize = 5;

pub const TARGET: usize = 6;

pub const A: usize = 8;

pub const B: usize = 16;
