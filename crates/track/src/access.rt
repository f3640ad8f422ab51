// The last dependent access of a cell, for the search for races between schedules: loom's rt/access.rs and Action.
ghost use Rattle.std.specs.Prelude.{◌≡◌, not, ◌||◌, ◌<◌, eqb};
ghost use Rattle.rules.specs.Machine.{dependent_branch, dependent_vector};
ghost use Rattle.rules.specs.State as rules;
ghost use Rattle.rules.specs.Vector.{at_most};
ghost use Rattle.layout.specs.Tables.{state};
ghost use Rattle.track.specs.LastAccess.{accessed};

use layout::action::A_LOAD;
use layout::of_cell::{ACCESS_BRANCH, LAST_ACCESS, LAST_NON_LOAD_ACCESS, NON_LOAD_BRANCH};
use layout::of_thread::SCHEDULE;
use layout::{Clocks, MAX_THREADS, NONE, Numbers, Operation};
use vv::VersionVec;

// The branch of the access that this operation depends on, or NONE: a load does not depend on loads.
pub fn last_dependent_branch(numbers: &Numbers, operation: Operation) -> u16
    requires { operation.cell < 4 }
    ensures { result ≡ dependent_branch numbers.now operation.action operation.cell }
{
    let at = if operation.action == A_LOAD {
        NON_LOAD_BRANCH
    } else {
        ACCESS_BRANCH
    };
    numbers[at + operation.cell]
}

// That access's vector.
pub fn last_dependent_version(clocks: &Clocks, operation: Operation) -> [u16; MAX_THREADS]
    requires { operation.cell < 4 }
    ensures { result ≡ dependent_vector clocks.now operation.action operation.cell }
{
    let at = if operation.action == A_LOAD {
        LAST_NON_LOAD_ACCESS
    } else {
        LAST_ACCESS
    };
    clocks[at + operation.cell]
}

// Whether a dependent access is there that did not happen before what the thread has scheduled so far.
pub fn is_concurrent(
    clocks: &Clocks,
    numbers: &Numbers,
    thread: usize,
    operation: Operation,
) -> bool
    requires { (thread < 5) × (operation.cell < 4) }
    ensures { result ≡ not (eqb (dependent_branch numbers.now operation.action operation.cell) rules.none || at_most (dependent_vector clocks.now operation.action operation.cell) (rules.vector clocks.now (rules.schedule_of thread))) }
{
    if last_dependent_branch(numbers, operation) == NONE {
        return false;
    }
    let version = last_dependent_version(clocks, operation);
    let schedule = clocks[SCHEDULE + thread];
    let access = VersionVec { versions: version };
    !access.at_most(VersionVec { versions: schedule })
}

// The chosen thread's operation becomes the last access, at this branch, after all that it depends on.
pub fn set_last_access(
    clocks: &mut Clocks,
    numbers: &mut Numbers,
    thread: usize,
    operation: Operation,
    branch: u16,
)
    requires { (thread < 5) × (operation.cell < 4) }
    ensures { (marks : rules.Marks) (values : rules.Values) → state clocks.new marks values numbers.new ≡ accessed (state clocks.old marks values numbers.old) thread operation.action operation.cell branch }
{
    let cell = operation.cell;
    let row = clocks[SCHEDULE + thread];
    let mut schedule = VersionVec { versions: row };
    if last_dependent_branch(numbers, operation) != NONE {
        let version = last_dependent_version(clocks, operation);
        schedule = schedule.join(VersionVec { versions: version });
    }
    let schedule = schedule.raise(thread);
    let row = schedule.versions;
    clocks[SCHEDULE + thread] = row;
    clocks[LAST_ACCESS + cell] = row;
    numbers[ACCESS_BRANCH + cell] = branch;
    if operation.action != A_LOAD {
        clocks[LAST_NON_LOAD_ACCESS + cell] = row;
        numbers[NON_LOAD_BRANCH + cell] = branch;
    }
}
