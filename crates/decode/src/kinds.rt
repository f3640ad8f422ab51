// The change kinds' numbers, by name. The last two may fail. A row's byte is any of 256; what it means is the enum `Change`.
pub const SWAP: u8 = 0;

pub const ADD: u8 = 1;

pub const SUBTRACT: u8 = 2;

pub const AND: u8 = 3;

pub const OR: u8 = 4;

pub const XOR: u8 = 5;

pub const NAND: u8 = 6;

pub const MAX: u8 = 7;

pub const MIN: u8 = 8;

pub const SIGNED_MAX: u8 = 9;

pub const SIGNED_MIN: u8 = 10;

pub const COMPARE: u8 = 11;

pub const DECREMENT: u8 = 12;
