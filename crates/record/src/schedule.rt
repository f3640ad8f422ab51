// A schedule record, after loom's impl Schedule and impl Thread: what concerns this record alone.
ghost use Rattle.std.specs.Prelude.{◌≡◌, ◌+◌, ◌*◌, ◌/◌, ◌%◌, ◌≤◌, ◌<◌, length};
ghost use Rattle.rules.specs.Path.{active, toggled, pendings, left};
ghost use Rattle.record.specs.Answers.{CountIs};
ghost use Rattle.record.specs.Fields.{with_record_byte, states_at, with_states_at};
ghost use Rattle.record.specs.Steps.{Visits};
ghost use Rattle.record.specs.Places.{FoundBelow, First};
ghost use Rattle.record.specs.Schedules.{byte_of, position_of, initial_at, Explores, ExploresAll, RecordMarked, PrevOf, PreemptionsOf};

use crate::fields;
use crate::fields::{field, part, put, put_part};
use layout::{MAX_THREADS, seed, wide8};

// The lowest thread in a state.
pub fn first_in(path: &[u8], at: usize, state: u8) -> Option<usize>
    requires { 16 * at + 16 ≤ length path.now }
    ensures { First (states_at path.now at) state result }
{
    states(path, at).iter().position(|s| *s == state)
}

// The five thread states.
fn states(path: &[u8], at: usize) -> &[u8]
    requires { 16 * at + 16 ≤ length path.now }
    ensures { result.now ≡ states_at path.now at }
{
    part(path, at, fields::THREADS, MAX_THREADS)
}

// The thread that is Active.
pub fn active_thread_index(path: &[u8], at: usize) -> Option<usize>
    requires { 16 * at + 16 ≤ length path.now }
    ensures { First (states_at path.now at) active result }
{
    first_in(path, at, seed::ACTIVE)
}

// A thread as the byte of the initial active field: NOBODY where it is none of the five.
fn thread_byte(thread: Option<usize>) -> u8
    ensures { result ≡ byte_of thread }
{
    match thread {
        Some(t) if t < MAX_THREADS => (t % 256) as u8,
        _ => fields::NOBODY,
    }
}

// The preemptions up to and with the choice that the record makes now: one more where it turned
// away from the thread that was active first.
pub fn preemptions(path: &[u8], at: usize) -> usize
    requires { 16 * at + 16 ≤ length path.now }
    ensures { PreemptionsOf path.now at result }
{
    let before = wide8(field(path, at, fields::PREEMPTIONS));
    let initial = field(path, at, fields::INITIAL_ACTIVE);
    if initial == fields::NOBODY {
        return before;
    }
    if initial == thread_byte(active_thread_index(path, at)) {
        return before;
    }
    before + 1
}

// The schedule record before this one. One that does not lie below counts as none, so that a walk
// always ends: NO_PREV lies below no record of a path. One that is no schedule, which no push_thread
// has written, counts as none too.
pub fn prev(path: &[u8], at: usize) -> Option<usize>
    requires { 16 * at + 16 ≤ length path.now }
    ensures { PrevOf path.now at result }
{
    let low = wide8(field(path, at, fields::PREV_LOW));
    let high = wide8(field(path, at, fields::PREV_HIGH));
    let prev = low + 256 * high;
    if at <= prev {
        return None;
    }
    if !fields::is_kind(path, prev, fields::KIND_SCHEDULE) {
        return None;
    }
    Some(prev)
}

// Sets the position of the schedule record before this one, or NO_PREV where there is none.
pub fn put_prev(path: &mut [u8], at: usize, prev: Option<usize>)
    requires { 16 * at + 16 ≤ length path.old }
    ensures { path.new ≡ with_record_byte (with_record_byte path.old at 9 (position_of prev % 256)) at 10 (position_of prev / 256 % 256) }
{
    let position = prev.unwrap_or(fields::NO_PREV);
    put(path, at, fields::PREV_LOW, (position % 256) as u8);
    put(path, at, fields::PREV_HIGH, (position / 256 % 256) as u8);
}

// Sets the five thread states to the seed.
pub fn put_threads(path: &mut [u8], at: usize, seed: [u8; MAX_THREADS])
    requires { 16 * at + 16 ≤ length path.old }
    ensures { path.new ≡ with_states_at path.old at seed }
{
    put_part(path, at, fields::THREADS, &seed);
}

// Where no thread is Active, the first that is in Yield becomes Active.
pub fn toggle_yield(path: &mut [u8], at: usize)
    requires { 16 * at + 16 ≤ length path.old }
    ensures { path.new ≡ with_states_at path.old at (toggled (states_at path.old at)) }
{
    if active_thread_index(path, at).is_some() {
        return;
    }
    if let Some(yielded) = first_in(path, at, seed::YIELD) {
        put(path, at, fields::THREADS + yielded, seed::ACTIVE);
    }
}

// Sets the initial active thread.
pub fn put_initial_active(path: &mut [u8], at: usize, prev: Option<usize>)
    requires { (16 * at + 16 ≤ length path.old) × FoundBelow at prev }
    ensures { path.new ≡ with_record_byte path.old at 8 (initial_at path.old at prev) }
{
    let initial = initial_active(path, at, prev);
    put(path, at, fields::INITIAL_ACTIVE, initial);
}

// The Active thread, unless the schedule before chose another.
fn initial_active(path: &[u8], at: usize, prev: Option<usize>) -> u8
    requires { (16 * at + 16 ≤ length path.now) × FoundBelow at prev }
    ensures { result ≡ initial_at path.now at prev }
{
    let active = active_thread_index(path, at);
    let Some(p) = prev else {
        return thread_byte(active);
    };
    if active != active_thread_index(path, p) {
        return fields::NOBODY;
    }
    thread_byte(active)
}

// Marks a thread to be explored, and answers how many choices that opened. A thread that is
// disabled here cannot be chosen: each other one is marked instead. A thread that is none of the
// five is no target.
pub fn backtrack(path: &mut [u8], at: usize, thread: usize) -> u64
    requires { 16 * at + 16 ≤ length path.old }
    ensures { RecordMarked path.old path.new at thread result }
{
    if MAX_THREADS <= thread {
        return 0;
    }
    if field(path, at, fields::THREADS + thread) == seed::DISABLED {
        return explore_all(path, at);
    }
    explore(path, at, thread)
}

// Turns Skip into Pending, and answers how many choices that opened. Every other state stays.
fn explore(path: &mut [u8], at: usize, thread: usize) -> u64
    requires { (16 * at + 16 ≤ length path.old) × (thread < 5) }
    ensures { Explores path.old path.new at thread result }
{
    if field(path, at, fields::THREADS + thread) == seed::SKIP {
        put(path, at, fields::THREADS + thread, seed::PENDING);
        return 1;
    }
    0
}

// The same for each thread.
fn explore_all(path: &mut [u8], at: usize) -> u64
    requires { 16 * at + 16 ≤ length path.old }
    ensures { ExploresAll path.old path.new at result }
{
    let mut opened = 0;
    for thread in 0..MAX_THREADS {
        opened += explore(path, at, thread);
    }
    opened
}

// How many threads are Pending.
pub fn pending(path: &[u8], at: usize) -> u64
    requires { 16 * at + 16 ≤ length path.now }
    ensures { CountIs 5 (pendings (states_at path.now at)) result }
{
    let waiting = states(path, at).iter().filter(|s| **s == seed::PENDING);
    waiting.count() as u64
}

// The Active thread becomes Visited and the first Pending one Active. Answers whether there was
// one.
pub fn step(path: &mut [u8], at: usize) -> bool
    requires { 16 * at + 16 ≤ length path.old }
    ensures { Visits path.old path.new at result }
{
    visit(path, at);
    let Some(next) = first_in(path, at, seed::PENDING) else {
        return false;
    };
    put(path, at, fields::THREADS + next, seed::ACTIVE);
    true
}

// The Active thread becomes Visited.
fn visit(path: &mut [u8], at: usize)
    requires { 16 * at + 16 ≤ length path.old }
    ensures { path.new ≡ with_states_at path.old at (left (states_at path.old at)) }
{
    if let Some(active) = active_thread_index(path, at) {
        put(path, at, fields::THREADS + active, seed::VISITED);
    }
}
