// What a run is given beside its table and buffers, and whether it is in range.
#![tactic(auto)]

ghost use Rattle.std.specs.Prelude.{◌≡◌, ◌*◌, eqb};
ghost use Rattle.rules.specs.Explored as rules;
ghost use Rattle.path.specs.Bounds.{bound_of};
ghost use Rattle.settings.specs.Given.{bound_for, settings_of};

pub use layout::RECORD;
use path::MAX_PREEMPTIONS;

// An execution may have as many preemptions as the bound says; any number where it is None.
#[derive(Clone, Copy)]
pub struct Settings {
    pub branches: u64,
    pub operations: u64,
    pub executions: u64,
    pub bound: Option<u8>,
    pub exploring: bool,
}

// The largest settings, by document 01, and that of branches by document 02, §4. A bound is one of the preemptions that a record counts.
pub const MAX_BRANCHES: u64 = 4096;

pub const MAX_OPERATIONS: u64 = 4096;

pub const MAX_EXECUTIONS: u64 = 65535;

pub const MAX_BOUND: u64 = MAX_PREEMPTIONS as u64;

// The bytes of the largest buffers.
pub const PATH_BYTES: usize = RECORD * MAX_BRANCHES as usize;

pub const TRACE_BYTES: usize = RECORD * MAX_OPERATIONS as usize;

// The bound that a number stands for: one above MAX_BOUND, the largest, is none.
pub fn bound_of(given: u64) -> Option<u8>
    ensures { bound_of result ≡ bound_for given }
{
    u8::try_from(given).ok()
}

// Whether B, L and N are in range.
pub fn settings_fine(settings: Settings) -> bool
    ensures { result ≡ rules.settings_fine (settings_of settings) }
{
    within(settings.branches, MAX_BRANCHES)
        & within(settings.operations, MAX_OPERATIONS)
        & within(settings.executions, MAX_EXECUTIONS)
}

fn within(n: u64, most: u64) -> bool
    ensures { result ≡ rules.within n most }
{
    (1..=most).contains(&n)
}

// Whether a buffer of so many bytes holds exactly so many records of 16 bytes.
pub fn holds_exactly(bytes: usize, records: u64) -> bool
    ensures { result ≡ eqb bytes (16 * records) }
{
    bytes % RECORD == 0 && (bytes / RECORD) as u64 == records
}
