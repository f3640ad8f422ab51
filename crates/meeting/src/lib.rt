// What a tick does to the two buffers. A question meets the path: rule (a)'s marks before it; past the known path, the branch that
// it adds; and what the branch there answers. A row that is complete has its entry in the trace.
#![tactic(auto)]

ghost use Rattle.std.specs.Prelude.{◌≡◌, ◌<◌, ◌≤◌, ◌+◌, ◌*◌, ◌^◌, length};
ghost use Rattle.rules.specs.Table.{opcode_in};
ghost use Rattle.rules.specs.Machine.{exploring_now};
ghost use Rattle.decode.specs.Ops.{decoded_of};
ghost use Rattle.event.specs.Moves.{HereWithin};
ghost use Rattle.meeting.specs.Stands.{GoesOn, FaultMet};
ghost use Rattle.meeting.specs.Branches.{CursorMarks, MarksThreads, Reaches, added_at, reached_at, PushedFew, AddedTo, RepliesBy};
ghost use Rattle.meeting.specs.Entries.{Lands, noted_at, completed_at, concluded_at};

use decode::Op;
use decode::opcodes::NO_OPCODE;
use event::{Fault, Here, Moved, NO_SLOT, Picked, Question, Site};
use layout::of_run::EXPLORING;
use layout::{Clocks, MAX_ATOMIC_HISTORY, MAX_THREADS, Marks, Numbers, wide16};
use path::NotAdded;
use record::Offered;
use trace::Entry;

// Where an execution stands: records in the path, those that it has passed, choices opened in the whole history, entries in
// the trace.
#[derive(Clone, Copy)]
pub struct Cursor {
    pub len: usize,
    pub pos: usize,
    pub opened: u64,
    pub entries: usize,
}

// How a tick comes out: the execution goes on, is over, or has met a fault.
#[derive(Clone, Copy)]
pub enum Outcome {
    Goes,
    Over,
    Faulted { fault: Fault, site: Site },
}

#[derive(Clone, Copy)]
pub struct Ticked {
    pub outcome: Outcome,
    pub cursor: Cursor,
}

// Rule (a), before a scheduling meets the path: marks the branches from which a conflicting order is to be tried, thread by
// thread, and counts what that opened.
pub fn mark(
    clocks: &Clocks,
    numbers: &Numbers,
    path: &mut [u8],
    bound: Option<u8>,
    question: Question,
    mut cursor: Cursor,
) -> Cursor
    requires { cursor.opened + 50 < 2 ^ 64 }
    ensures { CursorMarks cursor result clocks.now numbers.now path.old path.new bound question }
{
    let Question::Thread = question else {
        return cursor;
    };
    cursor.opened += mark_threads(clocks, numbers, path, bound);
    cursor
}

// The choices that rule (a) opens: a thread's branch is backtracked from, if its pending operation is in conflict with one.
fn mark_threads(clocks: &Clocks, numbers: &Numbers, path: &mut [u8], bound: Option<u8>) -> u64
    ensures { MarksThreads clocks.now numbers.now path.old path.new bound result }
{
    let mut opened = 0;
    for t in 0..MAX_THREADS {
        if let Some(point) = scheduling::conflict(clocks, numbers, t) {
            opened += path::backtrack(path, wide16(point), bound, t);
        }
    }
    opened
}

// Where the known path has been gone through, a question adds a branch.
pub fn reach(
    clocks: &Clocks,
    marks: &Marks,
    numbers: &Numbers,
    path: &mut [u8],
    here: Here,
    question: Question,
    cursor: Cursor,
) -> Ticked
    requires { HereWithin here × (cursor.pos ≤ cursor.len) × (16 * cursor.len ≤ length path.old) × (cursor.opened + 6 < 2 ^ 64) }
    ensures { Reaches cursor result clocks.now marks.now numbers.now path.old path.new (reached_at question here) }
{
    if cursor.pos == cursor.len {
        return add(clocks, marks, numbers, path, here, question, cursor);
    }
    goes(cursor)
}

// Adds the branch that a question asks for, with what it opens.
fn add(
    clocks: &Clocks,
    marks: &Marks,
    numbers: &Numbers,
    path: &mut [u8],
    here: Here,
    question: Question,
    cursor: Cursor,
) -> Ticked
    requires { HereWithin here × (cursor.pos ≤ cursor.len) × (16 * cursor.len ≤ length path.old) × (cursor.opened + 6 < 2 ^ 64) }
    ensures { Reaches cursor result clocks.now marks.now numbers.now path.old path.new (added_at question here) }
{
    let site = here.site;
    match question {
        Question::Thread => {
            let seed = scheduling::seed(numbers);
            let exploring = is_exploring(numbers);
            let pushed = path::push_thread(path, cursor.len, exploring, seed);
            added(site, pushed, cursor)
        }
        Question::Slot => add_load(clocks, marks, numbers, path, here, cursor),
        Question::Bit => {
            let exploring = is_exploring(numbers);
            let pushed = path::push_spurious(path, cursor.len, exploring);
            added(site, pushed, cursor)
        }
    }
}

// The branch of a load or an RMW, with the stores that it is offered. Where two of them are of equal order it is a fault.
fn add_load(
    clocks: &Clocks,
    marks: &Marks,
    numbers: &Numbers,
    path: &mut [u8],
    here: Here,
    cursor: Cursor,
) -> Ticked
    requires { HereWithin here × (cursor.pos ≤ cursor.len) × (16 * cursor.len ≤ length path.old) × (cursor.opened + 6 < 2 ^ 64) }
    ensures { Reaches cursor result clocks.now marks.now numbers.now path.old path.new (added_at Question.Slot here) }
{
    let site = here.site;
    let mut seed = [0u8; MAX_ATOMIC_HISTORY];
    let Ok(n) = accesses::offers(clocks, marks, numbers, &mut seed, here) else {
        return faulted(Fault::EqualOrders, site, cursor);
    };
    let exploring = is_exploring(numbers);
    let pushed = path::push_load(path, cursor.len, exploring, seed, n);
    added(site, pushed, cursor)
}

// Whether the execution explores now: a branch that it adds is one to be explored, or not, by this.
fn is_exploring(numbers: &Numbers) -> bool
    ensures { result ≡ exploring_now numbers.now }
{
    numbers[EXPLORING] == 1
}

// A branch that was added is counted, with what it opened; one that was not is a fault.
fn added(site: Site, pushed: Result<u64, NotAdded>, mut cursor: Cursor) -> Ticked
    requires { PushedFew pushed × (cursor.len + 1 < 2 ^ 64) × (cursor.opened + 6 < 2 ^ 64) }
    ensures { AddedTo pushed site cursor result }
{
    match pushed {
        Ok(opened) => {
            cursor.len += 1;
            cursor.opened += opened;
            goes(cursor)
        }
        Err(NotAdded::Full) => faulted(Fault::Full, site, cursor),
        Err(NotAdded::Preempted) => faulted(Fault::Preemptions, site, cursor),
    }
}

// What the branch at a position chooses. None where it is not of the question's kind.
pub fn answer(path: &[u8], pos: usize, question: Question) -> Option<Picked>
    ensures { RepliesBy path.now pos question result }
{
    match question {
        Question::Thread => match path::branch_thread(path, pos)? {
            Some(chosen) => Some(Picked::Thread {
                chosen,
                branch: (pos % 65536) as u16,
            }),
            None => Some(Picked::Nobody),
        },
        Question::Slot => {
            let Offered { slot, mask } = path::branch_load(path, pos)?;
            Some(Picked::Slot { slot, mask })
        }
        Question::Bit => Some(Picked::Bit(path::branch_spurious(path, pos)?)),
    }
}

// What a tick comes to that asks nothing more.
pub fn conclude(trace: &mut [u8], here: Here, event: Result<Moved, Fault>, cursor: Cursor) -> Ticked
    requires { 16 * cursor.entries ≤ length trace.old }
    ensures { Lands cursor result trace.old trace.new (concluded_at event here) }
{
    let site = here.site;
    match event {
        Ok(Moved::Moves) => goes(cursor),
        Ok(Moved::Done { slot, mask, value }) => note(trace, here, slot, mask, value, cursor),
        Ok(Moved::Asks { .. }) => faulted(Fault::Impossible, site, cursor),
        Ok(Moved::Ends) => Ticked {
            outcome: Outcome::Over,
            cursor,
        },
        Err(fault) => faulted(fault, site, cursor),
    }
}

// The entry of a row that is complete before it asks, as a yield is and no other.
pub fn note_if(trace: &mut [u8], here: Here, yielded: bool, cursor: Cursor) -> Ticked
    requires { 16 * cursor.entries ≤ length trace.old }
    ensures { Lands cursor result trace.old trace.new (completed_at yielded here) }
{
    if yielded {
        return note(trace, here, NO_SLOT, 0, 0, cursor);
    }
    goes(cursor)
}

// Adds the trace entry of a row that is complete. The trace of a run has room for it.
fn note(trace: &mut [u8], here: Here, slot: u8, mask: u8, value: u64, mut cursor: Cursor) -> Ticked
    requires { 16 * cursor.entries ≤ length trace.old }
    ensures { Lands cursor result trace.old trace.new (noted_at here slot mask value) }
{
    let site = here.site;
    let row = here.row;
    let entry = Entry {
        thread: site.thread,
        row: site.row,
        opcode: opcode_in(row),
        slot,
        mask,
        value,
    };
    if !trace::note(trace, cursor.entries, entry) {
        return faulted(Fault::Impossible, site, cursor);
    }
    cursor.entries += 1;
    goes(cursor)
}

// The opcode of a row; 255 of one that is none.
fn opcode_in(row: Option<Op>) -> u8
    ensures { result ≡ opcode_in (decoded_of row) }
{
    match row {
        Some(op) => table::opcode(op),
        None => NO_OPCODE,
    }
}

fn goes(cursor: Cursor) -> Ticked
    ensures { GoesOn cursor result }
{
    Ticked {
        outcome: Outcome::Goes,
        cursor,
    }
}

pub fn faulted(fault: Fault, site: Site, cursor: Cursor) -> Ticked
    ensures { FaultMet fault site cursor result }
{
    Ticked {
        outcome: Outcome::Faulted { fault, site },
        cursor,
    }
}
