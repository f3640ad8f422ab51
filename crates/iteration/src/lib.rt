// One execution, from its start to its end or fault: what loom's model::Builder::check calls an iteration.
#![tactic(auto)]

ghost use Rattle.std.specs.Prelude.{◌+◌, ◌*◌, ◌^◌, ◌<◌, ◌≤◌, length, get_or};
ghost use Rattle.meeting.specs.Stands.{lent};
ghost use Rattle.walk.specs.Walks.{CursorPlaced};
ghost use Rattle.iteration.specs.Executes.{most_opened, Fuel, Afresh, Walks, Executes};

use event::Fault;
use layout::{Clocks, Marks, Numbers, Values};
use table::Shape;
use walk::{Cursor, Limits, Outcome, Ticked};

// What an execution is given beside its table: the limits, and whether it explores from the start.
#[derive(Clone, Copy)]
pub struct Terms {
    pub limits: Limits,
    pub exploring: bool,
}

// One execution, from its start to its end or fault. The trace begins anew, the path is what the last one left.
pub fn execute(
    table: &[u8],
    shape: &Shape,
    clocks: &mut Clocks,
    marks: &mut Marks,
    values: &mut Values,
    numbers: &mut Numbers,
    path: &mut [u8],
    trace: &mut [u8],
    terms: Terms,
    cursor: Cursor,
) -> Ticked
    requires { (get_or shape.now 0 0 ≤ 5) × (get_or shape.now 1 0 ≤ 4) × (get_or shape.now 12 0 ≤ 4) × (16 * cursor.len ≤ length path.old) × (cursor.opened + most_opened < 2 ^ 64) }
    ensures { Executes (lent clocks.old marks.old values.old numbers.old path.old trace.old) (lent clocks.new marks.new values.new numbers.new path.new trace.new) table.now shape.now terms cursor result }
{
    let exploring = terms.exploring;
    start::start(table, shape, clocks, marks, values, numbers, exploring);
    let limits = terms.limits;
    let begins = again(cursor);
    walked(
        table, shape, clocks, marks, values, numbers, path, trace, limits, begins,
    )
}

// The execution starts at the path's first branch, with an empty trace.
fn again(mut cursor: Cursor) -> Cursor
    ensures { Afresh cursor result }
{
    cursor.pos = 0;
    cursor.entries = 0;
    cursor
}

// Tick after tick, until the execution is over or has met a fault.
fn walked(
    table: &[u8],
    shape: &Shape,
    clocks: &mut Clocks,
    marks: &mut Marks,
    values: &mut Values,
    numbers: &mut Numbers,
    path: &mut [u8],
    trace: &mut [u8],
    limits: Limits,
    cursor: Cursor,
) -> Ticked
    requires { (get_or shape.now 1 0 ≤ 4) × CursorPlaced cursor path.old trace.old × (cursor.opened + most_opened < 2 ^ 64) }
    ensures { Walks (lent clocks.old marks.old values.old numbers.old path.old trace.old) (lent clocks.new marks.new values.new numbers.new path.new trace.new) table.now shape.now limits cursor result }
{
    let fuel = ticks(limits.operations);
    let mut now = cursor;
    for _ in 0..fuel {
        let ticked = walk::tick(
            table, shape, clocks, marks, values, numbers, path, trace, limits, now,
        );
        let outcome = ticked.outcome;
        let Outcome::Goes = outcome else {
            return ticked;
        };
        let next = ticked.cursor;
        now = next;
    }
    walk::faulted(Fault::Impossible, walk::no_site(), now)
}

// More ticks than an execution of so many rows can take: one more than the definition's measure of its start.
fn ticks(operations: u16) -> u64
    ensures { Fuel operations result }
{
    3 * (operations as u64) + 26
}
