// The answers' numbers, as C and the texts have them; in the code an answer is the enum `Answer`.
pub const EXHAUSTED: u64 = 0;

pub const SPENT: u64 = 1;

pub const BAD_SETTINGS: u64 = 2;

pub const BAD_PATH: u64 = 3;

pub const BAD_TRACE: u64 = 4;

pub const BAD_TABLE: u64 = 5;

pub const DEADLOCK: u64 = 10;

pub const FULL: u64 = 11;

pub const ROWS: u64 = 12;

pub const EQUAL_ORDERS: u64 = 13;

pub const RACE: u64 = 14;

pub const CHECK: u64 = 15;

pub const FLAGS: u64 = 16;

pub const PREEMPTIONS: u64 = 17;

pub const UNMET: u64 = 18;

// None of document 01's.
pub const IMPOSSIBLE: u64 = 20;
