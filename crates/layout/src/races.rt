// The kinds of race, by document 01's numbers, and three more of plain cells: the access that meets the race, and the one that it is
// against. Numbers, since the report hands them to C, and what takes one takes any byte.
pub const LOAD_AGAINST_MUT: u8 = 1;

pub const UNSYNC_LOAD_AGAINST_MUT: u8 = 2;

pub const UNSYNC_LOAD_AGAINST_STORE: u8 = 3;

pub const STORE_AGAINST_MUT: u8 = 4;

pub const STORE_AGAINST_UNSYNC_LOAD: u8 = 5;

pub const MUT_AGAINST_LOAD: u8 = 6;

pub const MUT_AGAINST_UNSYNC_LOAD: u8 = 7;

pub const MUT_AGAINST_STORE: u8 = 8;

pub const MUT_AGAINST_MUT: u8 = 9;

pub const PLAIN_READ_AGAINST_WRITE: u8 = 10;

pub const PLAIN_WRITE_AGAINST_READ: u8 = 11;

pub const PLAIN_WRITE_AGAINST_WRITE: u8 = 12;
