// The execution path, after loom's rt/path.rs: records of 16 bytes in a buffer that the caller
// lends, the first `len` of them in use and every byte after those zero. As many branches can be
// added as the buffer has records. Every function takes any bytes, any length and any position: no
// room is Full, and a place without the record that is asked for is None.
#![tactic(auto)]

ghost use Rattle.std.specs.Prelude.{◌+◌, ◌*◌, ◌/◌, ◌≤◌, ◌≡◌, length, take};
ghost use Rattle.rules.specs.Path.{spurious_added, load_added};
ghost use Rattle.record.specs.Fields.{record_byte};
ghost use Rattle.record.specs.Places.{FoundBelow};
ghost use Rattle.path.specs.Choices.{ReadsSlot, Says, Chooses};
ghost use Rattle.path.specs.Pushes.{Pushes, PushesThread};
ghost use Rattle.path.specs.Bounds.{bound_of, reaches};
ghost use Rattle.path.specs.Places.{HasRoom, Present, Through, HasKind};
ghost use Rattle.path.specs.Steps.{AnyOpen, OpenIn, StepsPath};
ghost use Rattle.path.specs.Walks.{LastOf, PreemptionsBefore, ExploringFrom, SwitchFrom, MarksAt, MarksBefore, Backtracks};

use layout::{MAX_ATOMIC_HISTORY, MAX_THREADS};
pub use record::fields::MAX_PREEMPTIONS;
use record::fields::{RECORD, field};
use record::{Offered, fields, load, schedule};

// Why a branch was not added, so that the path is as it was: there is no room for it (answer 11), or
// its preemptions would pass 255 (answer 17).
#[derive(Clone, Copy)]
pub enum NotAdded {
    Full,
    Preempted,
}

// Adds a schedule branch with the seed's thread states, and answers how many choices it opened: what
// the seed has Pending, which is nothing in a run, where backtrack opens.
pub fn push_thread(
    path: &mut [u8],
    len: usize,
    exploring: bool,
    seed: [u8; MAX_THREADS],
) -> Result<u64, NotAdded>
    ensures { PushesThread path.old path.new len exploring seed result }
{
    room(path, len)?;
    let prev = last_schedule(path, len);
    let preemptions = preemptions_before(path, len, prev);
    if MAX_PREEMPTIONS < preemptions {
        return Err(NotAdded::Preempted);
    }
    fields::begin(path, len, fields::KIND_SCHEDULE, exploring);
    schedule::put_threads(path, len, seed);
    schedule::toggle_yield(path, len);
    schedule::put_initial_active(path, len, prev);
    fields::put(path, len, fields::PREEMPTIONS, preemptions as u8);
    schedule::put_prev(path, len, prev);
    if exploring {
        return Ok(schedule::pending(path, len));
    }
    Ok(0)
}

// The thread that the branch at a position has Active, if it has one. None where it is no schedule.
pub fn branch_thread(path: &[u8], pos: usize) -> Option<Option<usize>>
    ensures { Chooses path.now pos result }
{
    if !has_kind(path, pos, fields::KIND_SCHEDULE) {
        return None;
    }
    Some(schedule::active_thread_index(path, pos))
}

// Adds a load branch that offers the seed's first n slots, of which it chooses the first. The
// others are opened where it is explored.
pub fn push_load(
    path: &mut [u8],
    len: usize,
    exploring: bool,
    seed: [u8; MAX_ATOMIC_HISTORY],
    n: usize,
) -> Result<u64, NotAdded>
    ensures { Pushes path.old path.new len 6 (λ B bs. load_added B bs exploring (take n seed)) result }
{
    room(path, len)?;
    let n = n.min(MAX_ATOMIC_HISTORY);
    fields::begin(path, len, fields::KIND_LOAD, exploring);
    load::put_values(path, len, seed, n);
    if exploring {
        return Ok(load::left(n, 0));
    }
    Ok(0)
}

// The slot that the branch at a position chooses now, with its offers. None where it is no load.
pub fn branch_load(path: &[u8], pos: usize) -> Option<Offered>
    ensures { ReadsSlot path.now pos result }
{
    if !has_kind(path, pos, fields::KIND_LOAD) {
        return None;
    }
    load::offered(path, pos)
}

// Adds a spurious branch, which says no first. Its yes is opened where it is explored.
pub fn push_spurious(path: &mut [u8], len: usize, exploring: bool) -> Result<u64, NotAdded>
    ensures { Pushes path.old path.new len 1 (λ B bs. spurious_added B bs exploring) result }
{
    room(path, len)?;
    fields::begin(path, len, fields::KIND_SPURIOUS, exploring);
    Ok(u64::from(exploring))
}

// What the branch at a position says now. None where it is no spurious branch.
pub fn branch_spurious(path: &[u8], pos: usize) -> Option<bool>
    ensures { Says path.now pos result }
{
    if !has_kind(path, pos, fields::KIND_SPURIOUS) {
        return None;
    }
    Some(field(path, pos, fields::SPUR) != 0)
}

// Marks a thread to be explored at the last exploring schedule from a point downwards, and answers
// how many choices that opened. The branch at the point may be no schedule, or one that is not
// explored and so is never set to another choice: the mark goes to the next below that can take it.
// With a bound on the preemptions of an execution an earlier schedule is marked too.
pub fn backtrack(path: &mut [u8], point: usize, bound: Option<u8>, thread: usize) -> u64
    ensures { Backtracks path.old path.new point (bound_of bound) thread result }
{
    let Some(at) = exploring_from(path, point) else {
        return 0;
    };
    let opened = backtrack_at(path, at, bound, thread);
    if bound.is_none() {
        return opened;
    }
    opened + backtrack_before(path, at, bound, thread)
}

// Whether some choice is open. It looks at the last records first, where most open choices are.
pub fn any_open(path: &[u8], len: usize) -> bool
    ensures { AnyOpen path.now len result }
{
    for last in (0..present(path, len)).rev() {
        if 0 < record::open_at(path, last) {
            return true;
        }
    }
    false
}

// How many choices are open.
pub fn open(path: &[u8], len: usize) -> u64
    ensures { OpenIn path.now len result }
{
    let mut count = 0;
    for at in 0..present(path, len) {
        count += record::open_at(path, at);
    }
    count
}

// Sets the last branch with an open choice to its next one, drops every branch after it, and
// answers how many branches are left: none where no choice was open. So the tree of choices is
// walked depth first.
pub fn step(path: &mut [u8], len: usize) -> usize
    ensures { StepsPath path.old path.new len result }
{
    for last in (0..present(path, len)).rev() {
        if record::step_at(path, last) {
            return last + 1;
        }
        fields::clear(path, last);
    }
    0
}

// Whether there is room for one record more.
fn room(path: &[u8], len: usize) -> Result<(), NotAdded>
    ensures { HasRoom path.now len result }
{
    if path.len() / RECORD <= len {
        return Err(NotAdded::Full);
    }
    Ok(())
}

// The first records of the buffer: so many, or all where it has fewer.
fn present(path: &[u8], len: usize) -> usize
    ensures { Present path.now len result }
{
    len.min(path.len() / RECORD)
}

// The records up to a point and with it, or all where it lies past them.
fn through(path: &[u8], point: usize) -> usize
    ensures { Through path.now point result }
{
    let records = path.len() / RECORD;
    if records <= point {
        return records;
    }
    point + 1
}

// Whether there is a record at a position and it is of a kind.
fn has_kind(path: &[u8], pos: usize, kind: u8) -> bool
    ensures { HasKind path.now pos kind result }
{
    pos < path.len() / RECORD && fields::is_kind(path, pos, kind)
}

// The last schedule record of the path.
fn last_schedule(path: &[u8], len: usize) -> Option<usize>
    requires { 16 * len ≤ length path.now }
    ensures { LastOf path.now len result }
{
    for last in (0..len).rev() {
        if fields::is_kind(path, last, fields::KIND_SCHEDULE) {
            return Some(last);
        }
    }
    None
}

// The preemptions before a new branch at a position, by the schedule record before it.
fn preemptions_before(path: &[u8], at: usize, prev: Option<usize>) -> usize
    requires { (16 * at ≤ length path.now) × FoundBelow at prev }
    ensures { PreemptionsBefore path.now prev result }
{
    let Some(p) = prev else {
        return 0;
    };
    schedule::preemptions(path, p)
}

// The last exploring schedule record that does not stand after the point.
fn exploring_from(path: &[u8], point: usize) -> Option<usize>
    ensures { ExploringFrom path.now point result }
{
    for at in (0..through(path, point)).rev() {
        if fields::is_kind(path, at, fields::KIND_SCHEDULE) && fields::is_exploring(path, at) {
            return Some(at);
        }
    }
    None
}

// A mark in the schedule at a position: none where its preemptions have reached the bound.
fn backtrack_at(path: &mut [u8], at: usize, bound: Option<u8>, thread: usize) -> u64
    requires { 16 * at + 16 ≤ length path.old }
    ensures { MarksAt path.old path.new at (bound_of bound) thread result }
{
    if is_bound(path, at, bound) {
        return 0;
    }
    schedule::backtrack(path, at, thread)
}

// Whether the preemptions before the record are as many as the bound.
fn is_bound(path: &[u8], at: usize, bound: Option<u8>) -> bool
    requires { 16 * at + 16 ≤ length path.now }
    ensures { result ≡ reaches bound (record_byte path.now at 7) }
{
    Some(field(path, at, fields::PREEMPTIONS)) == bound
}

// The second mark of a bounded search, at a schedule before this one: a search that bounds
// preemptions has to be careful and add another point, to cover cases that the bound makes it miss.
// It is made also where the first left no mark. Answers how many choices it opened.
fn backtrack_before(path: &mut [u8], at: usize, bound: Option<u8>, thread: usize) -> u64
    requires { 16 * at + 16 ≤ length path.old }
    ensures { MarksBefore path.old path.new at (bound_of bound) thread result }
{
    let Some(prev) = schedule::prev(path, at) else {
        return 0;
    };
    let Some(curr) = switch_from(path, prev) else {
        return 0;
    };
    backtrack_at(path, curr, bound, thread)
}

// The last exploring schedule, from one downwards, whose Active thread is not that of the schedule
// before it. The very first schedule counts too, where it is explored.
fn switch_from(path: &[u8], from: usize) -> Option<usize>
    requires { 16 * from + 16 ≤ length path.now }
    ensures { SwitchFrom path.now from result }
{
    let mut curr = from;
    // Each record says which schedule is before it, so there is no range for a `for`.
    loop {
        let exploring = fields::is_exploring(path, curr);
        let Some(prev) = schedule::prev(path, curr) else {
            return exploring.then_some(curr);
        };
        if exploring
            && schedule::active_thread_index(path, curr)
                != schedule::active_thread_index(path, prev)
        {
            return Some(curr);
        }
        curr = prev;
    }
}
