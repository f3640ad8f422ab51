// What a schedule record says of a thread. Bytes, since they stand in the caller's path buffer, which may hold any.
pub const DISABLED: u8 = 0;

pub const SKIP: u8 = 1;

pub const YIELD: u8 = 2;

pub const PENDING: u8 = 3;

pub const ACTIVE: u8 = 4;

pub const VISITED: u8 = 5;
