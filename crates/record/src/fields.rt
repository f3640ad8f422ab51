// The fields of a path record, and the numbers that stand in them. Nothing else knows where they
// stand among its 16 bytes.
ghost use Rattle.std.specs.Prelude.{◌≡◌, ◌+◌, ◌*◌, ◌≤◌, ◌<◌, length, take, drop, eqb};
ghost use Rattle.std.proofs.Math.Seq.{paste};
ghost use Rattle.rules.specs.Path.{flag};
ghost use Rattle.rules.specs.Records.{record_at, with_record};
ghost use Rattle.record.specs.Fields.{record_byte, with_record_byte, record_begun, cleared};

pub use layout::RECORD;
use layout::{MAX_ATOMIC_HISTORY, MAX_THREADS};

// Every record: its kind.
pub const KIND: usize = 0;

// Every record: 1 where its choices are explored, else 0.
pub const EXPLORING: usize = KIND + 1;

// A schedule: the first of five thread states.
pub const THREADS: usize = EXPLORING + 1;

// A schedule: the preemptions before it.
pub const PREEMPTIONS: usize = THREADS + MAX_THREADS;

// The most preemptions that the field holds.
pub const MAX_PREEMPTIONS: usize = 255;

// A schedule: the thread that was active first, or NOBODY.
pub const INITIAL_ACTIVE: usize = PREEMPTIONS + 1;

// A schedule: the low byte of the previous schedule's position, or of NO_PREV.
pub const PREV_LOW: usize = INITIAL_ACTIVE + 1;

// A schedule: the high byte of the same.
pub const PREV_HIGH: usize = PREV_LOW + 1;

// A load: the first of seven values.
pub const VALUES: usize = EXPLORING + 1;

// A load: which of the values it reads now.
pub const POS: usize = VALUES + MAX_ATOMIC_HISTORY;

// A load: how many values it has.
pub const LEN: usize = POS + 1;

// A spurious branch: its bit.
pub const SPUR: usize = EXPLORING + 1;

// The kind of a schedule. The kinds are bytes of the caller's path buffer, which may hold any.
pub const KIND_SCHEDULE: u8 = 1;

// The kind of a load.
pub const KIND_LOAD: u8 = 2;

// The kind of a spurious branch.
pub const KIND_SPURIOUS: u8 = 3;

// An initial active thread that is none.
pub const NOBODY: u8 = 255;

// A previous schedule that is none.
pub const NO_PREV: usize = 65535;

// Byte k of the record at a position.
pub fn field(path: &[u8], at: usize, k: usize) -> u8
    requires { (16 * at + 16 ≤ length path.now) × (k < 16) }
    ensures { result ≡ record_byte path.now at k }
{
    path[RECORD * at + k]
}

// Sets byte k of the record at a position, and leaves every other byte.
pub fn put(path: &mut [u8], at: usize, k: usize, v: u8)
    requires { (16 * at + 16 ≤ length path.old) × (k < 16) }
    ensures { path.new ≡ with_record_byte path.old at k v }
{
    path[RECORD * at + k] = v;
}

// The n bytes of the record at a position from byte k on.
pub fn part(path: &[u8], at: usize, k: usize, n: usize) -> &[u8]
    requires { (16 * at + 16 ≤ length path.now) × (k + n ≤ 16) }
    ensures { result.now ≡ take n (drop k (record_at path.now at)) }
{
    let from = RECORD * at + k;
    &path[from..from + n]
}

// Sets the bytes of the record at a position from byte k on, and leaves every other byte.
pub fn put_part(path: &mut [u8], at: usize, k: usize, bytes: &[u8])
    requires { (16 * at + 16 ≤ length path.old) × (k + length bytes.now ≤ 16) }
    ensures { path.new ≡ with_record path.old at (paste (record_at path.old at) k bytes.now (length bytes.now)) }
{
    let from = RECORD * at + k;
    path[from..from + bytes.len()].copy_from_slice(bytes);
}

// Begins a record past the last one, where all bytes are zero: its kind, and whether it is
// explored. The fields that are to be zero need no more.
pub fn begin(path: &mut [u8], at: usize, kind: u8, exploring: bool)
    requires { 16 * at + 16 ≤ length path.old }
    ensures { path.new ≡ record_begun path.old at kind exploring }
{
    put(path, at, KIND, kind);
    put(path, at, EXPLORING, flag(exploring));
}

// Sets all bytes of a record to zero, as they are past the last one.
pub fn clear(path: &mut [u8], at: usize)
    requires { 16 * at + 16 ≤ length path.old }
    ensures { path.new ≡ cleared path.old at }
{
    put_part(path, at, KIND, &[0; RECORD]);
}

// Whether the record at a position is of a kind.
pub fn is_kind(path: &[u8], at: usize, kind: u8) -> bool
    requires { 16 * at + 16 ≤ length path.now }
    ensures { result ≡ eqb (record_byte path.now at 0) kind }
{
    field(path, at, KIND) == kind
}

// Whether the choices of the record at a position are explored.
pub fn is_exploring(path: &[u8], at: usize) -> bool
    requires { 16 * at + 16 ≤ length path.now }
    ensures { result ≡ eqb (record_byte path.now at 1) 1 }
{
    field(path, at, EXPLORING) == 1
}

fn flag(exploring: bool) -> u8
    ensures { result ≡ flag exploring }
{
    u8::from(exploring)
}
