// The orders, by document 01's numbers. Bytes and no enum: `Access` and the functions on it take any byte, and that is part of what they promise.
pub const RELAXED: u8 = 0;

pub const RELEASE: u8 = 1;

pub const ACQUIRE: u8 = 2;

pub const ACQ_REL: u8 = 3;

pub const SEQ_CST: u8 = 4;
