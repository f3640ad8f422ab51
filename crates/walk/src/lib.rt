// An execution under way: one tick of the machine, with the question that it may ask put to the path. There is one meeting with
// the path for all questions: past the known path the question adds a branch, and then, as everywhere else, the branch
// there answers.
#![tactic(auto)]

ghost use Rattle.std.specs.Prelude.{◌<◌, ◌≤◌, ◌+◌, ◌^◌, ◌≡◌, get_or};
ghost use Rattle.rules.specs.Event.{no_site};
ghost use Rattle.event.specs.Moves.{HereWithin};
ghost use Rattle.meeting.specs.Stands.{lent, site_of};
ghost use Rattle.walk.specs.Parts.{Goes, TicksNeeds, ticked_at, TakesNeeds, taken_at, MeetsNeeds, met_at};
ghost use Rattle.walk.specs.Walks.{CursorPlaced, Ticks, Passed};

use event::{Fault, Here, Moved, NO_ROW, NOWHERE, Question, Site};
use layout::of_run::ACTIVE_THREAD;
use layout::of_thread::NEXT_ROW;
use layout::{Clocks, MAX_THREADS, Marks, Numbers, Values, wide16};
pub use meeting::{Cursor, Outcome, Ticked, faulted};
use meeting::{answer, conclude, mark, note_if, reach};
use table::Shape;

// The operation limit, and the preemption bound.
#[derive(Clone, Copy)]
pub struct Limits {
    pub operations: u16,
    pub bound: Option<u8>,
}

// Where a tick is: the limits that it is under, the thread at its row, and how far the execution has come.
#[derive(Clone, Copy)]
struct TickAt {
    limits: Limits,
    here: Here,
    cursor: Cursor,
}

// One tick of the active thread, and the answer to what it asks.
pub fn tick(
    table: &[u8],
    shape: &Shape,
    clocks: &mut Clocks,
    marks: &mut Marks,
    values: &mut Values,
    numbers: &mut Numbers,
    path: &mut [u8],
    trace: &mut [u8],
    limits: Limits,
    cursor: Cursor,
) -> Ticked
    requires { (get_or shape.now 1 0 ≤ 4) × CursorPlaced cursor path.old trace.old × (cursor.opened + 60 < 2 ^ 64) }
    ensures { Ticks (lent clocks.old marks.old values.old numbers.old path.old trace.old) (lent clocks.new marks.new values.new numbers.new path.new trace.new) table.now shape.now limits cursor result }
{
    let thread = wide16(numbers[ACTIVE_THREAD]);
    if MAX_THREADS <= thread {
        return faulted(Fault::Impossible, no_site(), cursor);
    }
    let row = numbers[NEXT_ROW + thread];
    let decoded = table::row_of(table, shape, thread, row);
    let site = Site { thread, row };
    let here = Here { site, row: decoded };
    let at = TickAt {
        limits,
        here,
        cursor,
    };
    tick_at(shape, clocks, marks, values, numbers, path, trace, at)
}

// One tick of a thread at its row.
fn tick_at(
    shape: &Shape,
    clocks: &mut Clocks,
    marks: &mut Marks,
    values: &mut Values,
    numbers: &mut Numbers,
    path: &mut [u8],
    trace: &mut [u8],
    at: TickAt,
) -> Ticked
    requires { (get_or shape.now 1 0 ≤ 4) × HereWithin at.here × CursorPlaced at.cursor path.old trace.old × (at.cursor.opened + 60 < 2 ^ 64) }
    ensures { Goes (lent clocks.old marks.old values.old numbers.old path.old trace.old) (lent clocks.new marks.new values.new numbers.new path.new trace.new) at.cursor result 60 at.here (TicksNeeds shape.now at.limits at.here) (ticked_at at.here) }
{
    let limits = at.limits;
    let here = at.here;
    let operations = limits.operations;
    let event = execution::next(shape, clocks, marks, values, numbers, operations, here);
    take(clocks, marks, values, numbers, path, trace, at, event)
}

// What a tick comes to. A yield is complete before its scheduling, and so is its trace entry. A fault leaves first: one test for it and
// the question has the compiler put both tags together, and every complete row is then told apart once more.
fn take(
    clocks: &mut Clocks,
    marks: &mut Marks,
    values: &mut Values,
    numbers: &mut Numbers,
    path: &mut [u8],
    trace: &mut [u8],
    at: TickAt,
    event: Result<Moved, Fault>,
) -> Ticked
    requires { HereWithin at.here × CursorPlaced at.cursor path.old trace.old × (at.cursor.opened + 60 < 2 ^ 64) }
    ensures { Goes (lent clocks.old marks.old values.old numbers.old path.old trace.old) (lent clocks.new marks.new values.new numbers.new path.new trace.new) at.cursor result 60 at.here (TakesNeeds event at.here at.limits.bound) (taken_at event at.here) }
{
    let limits = at.limits;
    let bound = limits.bound;
    let here = at.here;
    let cursor = at.cursor;
    let moved = match event {
        Ok(moved) => moved,
        Err(fault) => return faulted(fault, here.site, cursor),
    };
    let Moved::Asks { question, yielded } = moved else {
        return conclude(trace, here, event, cursor);
    };
    let noted = note_if(trace, here, yielded, cursor);
    let outcome = noted.outcome;
    let Outcome::Goes = outcome else {
        return noted;
    };
    let before = noted.cursor;
    let cursor = mark(clocks, numbers, path, bound, question, before);
    let at = TickAt {
        limits,
        here,
        cursor,
    };
    meet(clocks, marks, values, numbers, path, trace, at, question)
}

// A question meets the path: the branch there answers.
fn meet(
    clocks: &mut Clocks,
    marks: &mut Marks,
    values: &mut Values,
    numbers: &mut Numbers,
    path: &mut [u8],
    trace: &mut [u8],
    at: TickAt,
    question: Question,
) -> Ticked
    requires { HereWithin at.here × CursorPlaced at.cursor path.old trace.old × (at.cursor.opened + 6 < 2 ^ 64) }
    ensures { Goes (lent clocks.old marks.old values.old numbers.old path.old trace.old) (lent clocks.new marks.new values.new numbers.new path.new trace.new) at.cursor result 6 at.here (MeetsNeeds question at.here) (met_at question at.here) }
{
    let here = at.here;
    let cursor = at.cursor;
    let met = reach(clocks, marks, numbers, path, here, question, cursor);
    let outcome = met.outcome;
    let Outcome::Goes = outcome else {
        return met;
    };
    let cursor = met.cursor;
    let site = here.site;
    let Some(choice) = answer(path, cursor.pos, question) else {
        return faulted(Fault::Impossible, site, cursor);
    };
    let event = execution::answered(clocks, marks, values, numbers, here, choice);
    conclude(trace, here, event, passed(cursor))
}

// One record more is passed.
fn passed(mut cursor: Cursor) -> Cursor
    requires { cursor.pos + 1 < 2 ^ 64 }
    ensures { Passed cursor result }
{
    cursor.pos = cursor.pos + 1;
    cursor
}

// The thread and the row of a fault that no machine meets.
pub fn no_site() -> Site
    ensures { site_of result ≡ no_site }
{
    Site {
        thread: NOWHERE,
        row: NO_ROW,
    }
}
