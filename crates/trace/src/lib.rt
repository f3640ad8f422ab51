// The trace of an execution: entries of 16 bytes in a buffer that the caller lends, in the order in which rows are complete.
#![tactic(auto)]

ghost use Rattle.std.specs.Prelude.{◌≡◌, cond, ◌+◌, ◌*◌, ◌/◌, ◌≤◌, ltb, length, take, drop, replicate};
ghost use Rattle.rules.specs.Event.{entry_bytes};
ghost use Rattle.std.proofs.Math.Seq.{paste};
ghost use Rattle.trace.specs.Entries.{entry_of, Notes, Cleared, Zeros};

use layout::RECORD;
use little::low_bytes;

pub mod of_entry;

// One row that is complete.
#[derive(Clone, Copy)]
pub struct Entry {
    pub thread: usize,
    pub row: u16,
    pub opcode: u8,
    pub slot: u8,
    pub mask: u8,
    pub value: u64,
}

// Writes an entry past the first `entries`, and answers whether there was room.
pub fn note(trace: &mut [u8], entries: usize, entry: Entry) -> bool
    ensures { Notes trace.old trace.new entries (entry_of entry) result }
{
    if trace.len() / RECORD <= entries {
        return false;
    }
    write(trace, RECORD * entries, bytes_of(entry));
    true
}

// The bytes of an entry, in the order of `of_entry`, zeros between the mask and the value; of that the least byte first.
fn bytes_of(entry: Entry) -> [u8; RECORD]
    ensures { result ≡ entry_bytes (entry_of entry) }
{
    let value = low_bytes(entry.value);
    [
        (entry.thread % 256) as u8,
        (entry.row % 256) as u8,
        entry.opcode,
        entry.slot,
        entry.mask,
        0,
        0,
        0,
        value[0],
        value[1],
        value[2],
        value[3],
        value[4],
        value[5],
        value[6],
        value[7],
    ]
}

fn write(trace: &mut [u8], at: usize, bytes: [u8; RECORD])
    requires { at + 16 ≤ length trace.old }
    ensures { trace.new ≡ paste trace.old at bytes 16 }
{
    trace[at..at + RECORD].copy_from_slice(&bytes);
}

// Sets the bytes from `from` up to `to` to zero, as far as there are any.
pub fn clear(bytes: &mut [u8], from: usize, to: usize)
    ensures { Cleared bytes.old bytes.new from to }
{
    let end = to.min(bytes.len());
    if from < end {
        bytes[from..end].fill(0);
    }
}

// Sets all bytes to zero.
pub fn clear_all(bytes: &mut [u8])
    ensures { Zeros bytes.old bytes.new }
{
    bytes.fill(0);
}
