// Where which number stands, of a report ..
pub const ANSWER: usize = 0;

pub const BEGUN: usize = 1;

pub const OPENED: usize = 2;

pub const STILL_OPEN: usize = 3;

pub const ROWS: usize = 4;

pub const THREAD: usize = 5;

pub const ROW: usize = 6;

pub const KIND: usize = 7;

pub const OTHER: usize = 8;

// .. and of the four of a thread's summary.
pub const STATE: usize = 0;

pub const THREAD_ROWS: usize = 1;

pub const YIELDS: usize = 2;

pub const VERSION: usize = 3;
