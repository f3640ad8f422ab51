// The opcodes' numbers, by name. A row's byte is any of 256; what it means is the enum `Op`. Where a row is
// decoded its byte is matched with the numbers themselves; all else has the names.
pub const LOAD: u8 = 0;

pub const STORE: u8 = 1;

pub const STORE_REGISTER: u8 = 2;

pub const RMW: u8 = 3;

pub const FENCE: u8 = 4;

pub const UNSYNC_LOAD: u8 = 5;

pub const WITH_MUT: u8 = 6;

pub const YIELD: u8 = 7;

pub const JOIN: u8 = 8;

pub const JUMP: u8 = 9;

pub const JUMP_IF: u8 = 10;

pub const JUMP_UNLESS: u8 = 11;

pub const CHECK: u8 = 12;

pub const CRITICAL: u8 = 13;

pub const EXPLORE_STATE: u8 = 14;

pub const SKIP_BRANCH: u8 = 15;

pub const SPURIOUS: u8 = 16;

pub const PLAIN_READ: u8 = 17;

pub const PLAIN_WRITE: u8 = 18;

// The opcode of what is no row.
pub const NO_OPCODE: u8 = 255;
