// The steps of the last execution, read back from its trace: how many there are, what each did, and from which of them the
// machine's cells and registers have what they hold. Each promise is an equation with a definition in specs/, for any bytes.
#![tactic(auto)]

ghost use Rattle.std.specs.Prelude.{◌≡◌, ◌<◌};
ghost use Rattle.rules.specs.Machine.{row_count};
ghost use Rattle.decode.specs.Ops.{decoded_of};
ghost use Rattle.steps.specs.Entries.{byte_at, entry_read, is_entry, entries, program, row_says, operation_at};

use decode::Op;
use decode::opcodes::LOAD;
use layout::{MAX_THREADS, RECORD, short8, wide8};
use table::COUNTS;
use trace::of_entry;

pub mod held;

// How many entries the trace has.
pub fn count(trace: &[u8]) -> usize
    ensures { result ≡ entries trace.now }
{
    let room = trace.len() / RECORD;
    for i in 0..room {
        if !is_entry(trace, i) {
            return i;
        }
    }
    room
}

// Past the last entry the trace is zero, and no entry has opcode 0 with nothing offered.
fn is_entry(trace: &[u8], i: usize) -> bool
    ensures { result ≡ is_entry (entry_read trace.now i) }
{
    (opcode(trace, i) != LOAD) | (mask(trace, i) != 0)
}

// What entry `i` says.
pub fn thread(trace: &[u8], i: usize) -> u8
    ensures { result ≡ (entry_read trace.now i).thread }
{
    byte(trace, i, of_entry::THREAD)
}

pub fn row(trace: &[u8], i: usize) -> u8
    ensures { result ≡ (entry_read trace.now i).row }
{
    byte(trace, i, of_entry::ROW)
}

pub fn opcode(trace: &[u8], i: usize) -> u8
    ensures { result ≡ (entry_read trace.now i).opcode }
{
    byte(trace, i, of_entry::OPCODE)
}

pub fn slot(trace: &[u8], i: usize) -> u8
    ensures { result ≡ (entry_read trace.now i).slot }
{
    byte(trace, i, of_entry::SLOT)
}

pub fn mask(trace: &[u8], i: usize) -> u8
    ensures { result ≡ (entry_read trace.now i).mask }
{
    byte(trace, i, of_entry::MASK)
}

pub fn value(trace: &[u8], i: usize) -> u64
    ensures { result ≡ (entry_read trace.now i).value }
{
    if i < trace.len() / RECORD {
        return little::u64_at(trace, RECORD * i + of_entry::VALUE);
    }
    0
}

// A byte of entry `i`; 0 where there is none.
fn byte(trace: &[u8], i: usize, place: usize) -> u8
    requires { place < 16 }
    ensures { result ≡ byte_at trace.now i place }
{
    if i < trace.len() / RECORD {
        return trace[RECORD * i + place];
    }
    0
}

// What the row of entry `i` does; refused where there is no such entry.
pub fn operation(table: &[u8], trace: &[u8], i: usize) -> Option<Op>
    ensures { decoded_of result ≡ operation_at table.now trace.now i }
{
    if i < trace.len() / RECORD {
        return row_of(table, thread(trace, i), row(trace, i));
    }
    None
}

// What the row of a thread does, by its number there; refused for a thread that no table has.
pub fn row_of(table: &[u8], thread: u8, row: u8) -> Option<Op>
    ensures { decoded_of result ≡ row_says table.now thread row }
{
    let t = wide8(thread);
    if MAX_THREADS <= t {
        return None;
    }
    let shape = table::shape(table);
    table::row_of(table, &shape, t, short8(row))
}

// How many rows a thread has.
pub fn row_count(table: &[u8], thread: u8) -> u8
    ensures { result ≡ row_count (program table.now) thread }
{
    let t = wide8(thread);
    if t < MAX_THREADS {
        if COUNTS + t < table.len() {
            return table[COUNTS + t];
        }
    }
    0
}
