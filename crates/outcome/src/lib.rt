// What came of a step: what it read, and which step wrote that; what it left; whether a jump was taken.
#![tactic(auto)]

ghost use Rattle.std.specs.Prelude.{◌≡◌};
ghost use Rattle.rules.specs.Change.{applied};
ghost use Rattle.change.specs.Changes.{change_meant};
ghost use Rattle.decode.specs.Ops.{op_of};
ghost use Rattle.outcome.specs.Comes.{change_came, came_of, came_of_step};

use change::Change;
use decode::Op;
use steps::held;
use steps::held::Held;

// A value that was read comes with the step that wrote it, counted from 1, or 0 for a start value. A change that succeeds wrote
// another behind it; an exclusive one left it in the place of what it found. A plain cell holds what was written last.
#[derive(Clone, Copy)]
pub enum Came {
    Read(u64, u64),
    Stored(u64),
    Wrote(u64, u64, u64),
    Failed(u64, u64),
    Left(u64, u64),
    Took(u64),
    Jumped(bool),
    Passed,
    Written(u64),
}

// What came of step `i`, by what was held before it.
pub fn of_step(table: &[u8], trace: &[u8], held: &Held, i: usize) -> Option<Came>
    ensures { result ≡ came_of_step table.now trace.now held.now i }
{
    let Some(op) = steps::operation(table, trace, i) else {
        return None;
    };
    let thread = steps::thread(trace, i);
    let slot = steps::slot(trace, i);
    of_row(held, thread, op, slot, steps::value(trace, i))
}

// What came of a row of this thread with this slot and value in its entry.
fn of_row(held: &Held, thread: u8, op: Op, slot: u8, value: u64) -> Option<Came>
    ensures { result ≡ came_of held.now thread slot value (op_of op) }
{
    match op {
        Op::Load { cell, .. } | Op::UnsyncLoad { cell, .. } => {
            Some(Came::Read(value, held::writer(held, cell, slot)))
        }
        Op::Store { .. } | Op::StoreRegister { .. } => Some(Came::Stored(value)),
        Op::Rmw { cell, change, .. } => {
            Some(of_change(change, value, held::writer(held, cell, slot)))
        }
        Op::WithMut { cell, .. } => Some(Came::Left(held::newest(held, cell), value)),
        Op::Jump { .. } => Some(Came::Jumped(true)),
        Op::JumpIf { register, a, .. } => {
            Some(Came::Jumped(held::register(held, thread, register) == a))
        }
        Op::JumpUnless { register, a, .. } => {
            Some(Came::Jumped(held::register(held, thread, register) != a))
        }
        Op::Check { .. } => Some(Came::Passed),
        Op::Spurious { .. } => Some(Came::Took(value)),
        Op::PlainRead { plain, .. } => Some(Came::Read(value, held::plain_writer(held, plain))),
        Op::PlainWrite { .. } => Some(Came::Written(value)),
        _ => None,
    }
}

// What a change wrote over the value that it read, or that it failed.
fn of_change(change: Change, read: u64, writer: u64) -> Came
    ensures { result ≡ change_came read writer (applied (change_meant change) read) }
{
    let Some(value) = change::apply(change, read) else {
        return Came::Failed(read, writer);
    };
    Came::Wrote(read, writer, value)
}
