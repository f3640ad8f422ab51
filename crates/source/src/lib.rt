// What a file holds: a text or a table, told by its first byte. No text that is read begins as a table does, and every accepted table
// does (specs/Told).
#![tactic(auto)]

ghost use Rattle.std.specs.Prelude.{◌≡◌};
ghost use Rattle.source.specs.Told.{holds_table};

use layout::{MAX_THREADS, wide8};

// The longest file that the programs take, in bytes. It is more than any text that is written has, or any table.
pub const FILE_BYTES: usize = 65536;

// The room that a program has for one: a byte more, so that a longer file shows.
pub const ROOM: usize = FILE_BYTES + 1;

// Whether these bytes are to be taken for a table: the first one is a count of threads.
pub fn is_table(bytes: &[u8]) -> bool
    ensures { result ≡ holds_table bytes.now }
{
    if bytes.len() == 0 {
        return false;
    }
    let first = wide8(bytes[0]);
    (1 <= first) & (first <= MAX_THREADS)
}
