// What a thread is about to do to a cell, as a number: loom's Action, and none. Numbers and no enum, since they are entries of the table of
// numbers, where any value can stand.
pub const NO_OPERATION: u16 = 0;

pub const A_LOAD: u16 = 1;

pub const A_STORE: u16 = 2;

pub const A_RMW: u16 = 3;
