// The states of threads: loom's rt/thread.rs over the lent tables.
#![tactic(auto)]

ghost use Rattle.std.specs.Prelude.{◌≡◌, ◌<◌};
ghost use Rattle.rules.specs.Cell as cells;
ghost use Rattle.rules.specs.Machine.{is_in, can_run, ended, completed, version_raised, yield_done, blocked_on, thread_ended, others_awake, all_over, some_can_run, is_to_begin};
ghost use Rattle.rules.specs.State as rules;
ghost use Rattle.layout.specs.Tables.{state};

use layout::action::NO_OPERATION;
use layout::of_thread::{AWAITS, CAUSALITY, LAST_YIELD, NEXT_ROW, OPERATION, PHASE, STATE, YIELDS};
use layout::{Clocks, MAX_THREADS, Numbers, wide16};
use vv::VersionVec;

// A thread's state, by document 01's numbers: entries of the table of numbers, which the report has as they are.
pub const ABSENT: u16 = 0;

pub const RUNNABLE: u16 = 1;

pub const BLOCKED: u16 = 2;

pub const YIELDED: u16 = 3;

pub const ENDED: u16 = 4;

// How far a thread's row is: to be begun, or begun and to act when the thread runs again.
pub const TO_BEGIN: u16 = 0;

pub const TO_ACT: u16 = 1;

// Whether the thread's row is still to begin.
pub fn is_to_begin(numbers: &Numbers, thread: usize) -> bool
    requires { thread < 5 }
    ensures { (clocks : rules.Clocks) (marks : rules.Marks) (values : rules.Values) → result ≡ is_to_begin (state clocks marks values numbers.now) thread }
{
    numbers[PHASE + thread] == TO_BEGIN
}

pub fn is_ended(numbers: &Numbers, thread: usize) -> bool
    requires { thread < 5 }
    ensures { result ≡ is_in numbers.now ended thread }
{
    numbers[STATE + thread] == ENDED
}

// Whether a branch may choose the thread: it is one, and is runnable or has yielded.
pub fn can_run(numbers: &Numbers, thread: usize) -> bool
    ensures { result ≡ can_run numbers.now thread }
{
    if MAX_THREADS <= thread {
        return false;
    }
    let state = numbers[STATE + thread];
    (state == RUNNABLE) | (state == YIELDED)
}

// The thread's row is complete, and the row with this number is next.
pub fn complete(numbers: &mut Numbers, thread: usize, next: u16)
    requires { thread < 5 }
    ensures { (clocks : rules.Clocks) (marks : rules.Marks) (values : rules.Values) → state clocks marks values numbers.new ≡ completed (state clocks marks values numbers.old) thread next }
{
    numbers[NEXT_ROW + thread] = next;
    numbers[PHASE + thread] = TO_BEGIN;
}

// The own version, raised by one: what opcodes 0 to 4 and a join that goes through do before they act.
pub fn raise(clocks: &mut Clocks, thread: usize)
    requires { thread < 5 }
    ensures { (marks : rules.Marks) (values : rules.Values) (numbers : rules.Numbers) → state clocks.new marks values numbers ≡ version_raised (state clocks.old marks values numbers) thread }
{
    let row = clocks[CAUSALITY + thread];
    let causality = VersionVec { versions: row };
    let causality = causality.raise(thread);
    let row = causality.versions;
    clocks[CAUSALITY + thread] = row;
}

// A thread's version is its own part.
pub fn version(clocks: &Clocks, thread: usize) -> u16
    requires { thread < 5 }
    ensures { result ≡ cells.version clocks.now thread }
{
    let causality = clocks[CAUSALITY + thread];
    causality[thread]
}

// Yields. The version of this moment is remembered: what the thread has seen up to it is not offered again where a newer
// store is there, so that a loop that waits for a change comes to an end.
pub fn set_yield(clocks: &Clocks, numbers: &mut Numbers, thread: usize)
    requires { thread < 5 }
    ensures { (marks : rules.Marks) (values : rules.Values) → state clocks.now marks values numbers.new ≡ yield_done (state clocks.now marks values numbers.old) thread }
{
    numbers[STATE + thread] = YIELDED;
    numbers[LAST_YIELD + thread] = version(clocks, thread);
    numbers[YIELDS + thread] = vv::one_more(numbers[YIELDS + thread]);
    numbers[OPERATION + thread] = NO_OPERATION;
}

// Blocks until the target has ended.
pub fn set_blocked(numbers: &mut Numbers, thread: usize, target: usize)
    requires { (thread < 5) × (target < 5) }
    ensures { (clocks : rules.Clocks) (marks : rules.Marks) (values : rules.Values) → state clocks marks values numbers.new ≡ blocked_on (state clocks marks values numbers.old) thread target }
{
    numbers[STATE + thread] = BLOCKED;
    numbers[AWAITS + thread] = target as u16;
    numbers[OPERATION + thread] = NO_OPERATION;
}

// Ends a thread, which frees the joins on it before the scheduling that follows.
pub fn end(numbers: &mut Numbers, thread: usize)
    requires { thread < 5 }
    ensures { (clocks : rules.Clocks) (marks : rules.Marks) (values : rules.Values) → state clocks marks values numbers.new ≡ thread_ended (state clocks marks values numbers.old) thread }
{
    numbers[STATE + thread] = ENDED;
    numbers[OPERATION + thread] = NO_OPERATION;
    for t in 0..MAX_THREADS {
        if numbers[STATE + t] == BLOCKED && wide16(numbers[AWAITS + t]) == thread {
            numbers[STATE + t] = RUNNABLE;
        }
    }
}

// Rule (e): every yielded thread other than the one just chosen is runnable again. The chosen one stays yielded until a later
// choice picks another thread: a loop that waits for a change does not count as one that can go on.
pub fn reactivate(numbers: &mut Numbers, chosen: usize)
    ensures { numbers.new ≡ others_awake chosen numbers.old }
{
    for t in 0..MAX_THREADS {
        if numbers[STATE + t] == YIELDED && t != chosen {
            numbers[STATE + t] = RUNNABLE;
        }
    }
}

// Whether every present thread has ended.
pub fn all_ended(numbers: &Numbers) -> bool
    ensures { result ≡ all_over numbers.now 5 0 }
{
    for t in 0..MAX_THREADS {
        let state = numbers[STATE + t];
        if state != ENDED && state != ABSENT {
            return false;
        }
    }
    true
}

// Whether some thread can run.
pub fn some_can_run(numbers: &Numbers) -> bool
    ensures { result ≡ some_can_run numbers.now 5 0 }
{
    (0..MAX_THREADS).any(|t| can_run(numbers, t))
}
