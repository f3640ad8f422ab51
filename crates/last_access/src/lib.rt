// The steps that access a cell or a plain cell, as a race speaks of them.
#![tactic(auto)]

ghost use Rattle.std.specs.Prelude.{◌≡◌, ◌<◌, IfSome};
ghost use Rattle.rules.specs.Change.{applied};
ghost use Rattle.change.specs.Changes.{change_meant};
ghost use Rattle.decode.specs.Ops.{op_of};
ghost use Rattle.last_access.specs.Access.{cell_in, is_success, stores_after, accesses, is_access, last_access_step};

use change::Change;
use decode::Op;

// How a step accesses a cell or, in the last two, a plain cell. A change that fails only loads.
#[derive(Clone, Copy)]
pub enum AccessKind {
    Load,
    UnsyncLoad,
    Store,
    Exclusive,
    PlainRead,
    PlainWrite,
}

// An access to a cell, or to a plain cell: its kind says to which.
#[derive(Clone, Copy)]
pub struct CellAccess {
    pub cell: u64,
    pub kind: AccessKind,
}

// The last of the first `n` steps in which a thread so accesses a cell.
pub fn last(table: &[u8], trace: &[u8], thread: u64, access: CellAccess, n: usize) -> Option<usize>
    ensures same { result ≡ last_access_step table.now trace.now thread access.cell access.kind n }
    ensures one_of_them { IfSome result (λ i. i < n) }
{
    for i in (0..n).rev() {
        if is_access(table, trace, thread, access, i) {
            return Some(i);
        }
    }
    None
}

// Whether step `i` is such an access.
fn is_access(table: &[u8], trace: &[u8], thread: u64, access: CellAccess, i: usize) -> bool
    ensures { result ≡ is_access table.now trace.now thread access.cell access.kind i }
{
    let Some(op) = steps::operation(table, trace, i) else {
        return false;
    };
    let kind = access.kind;
    (steps::thread(trace, i) as u64 == thread)
        & (cell_of(op) == Some(access.cell))
        & is_of(op, kind, steps::value(trace, i))
}

// Whether a row so accesses its cell, where it has read this value; a change loads, whether it succeeds or not.
fn is_of(op: Op, kind: AccessKind, read: u64) -> bool
    ensures { result ≡ accesses kind read (op_of op) }
{
    match kind {
        AccessKind::Load => matches!(op, Op::Load { .. } | Op::Rmw { .. }),
        AccessKind::UnsyncLoad => matches!(op, Op::UnsyncLoad { .. }),
        AccessKind::Store => stores(op, read),
        AccessKind::Exclusive => matches!(op, Op::WithMut { .. }),
        AccessKind::PlainRead => matches!(op, Op::PlainRead { .. }),
        AccessKind::PlainWrite => matches!(op, Op::PlainWrite { .. }),
    }
}

// The cell that a row names, or the plain cell: the row says which.
pub fn cell_of(op: Op) -> Option<u64>
    ensures { result ≡ cell_in (op_of op) }
{
    match op {
        Op::Load { cell, .. }
        | Op::Store { cell, .. }
        | Op::StoreRegister { cell, .. }
        | Op::Rmw { cell, .. }
        | Op::UnsyncLoad { cell, .. }
        | Op::WithMut { cell, .. } => Some(cell as u64),
        Op::PlainRead { plain, .. } | Op::PlainWrite { plain, .. } => Some(plain as u64),
        _ => None,
    }
}

// Whether a row stores to a cell, where it has read this value.
fn stores(op: Op, read: u64) -> bool
    ensures { result ≡ stores_after read (op_of op) }
{
    match op {
        Op::Store { .. } => true,
        Op::StoreRegister { .. } => true,
        Op::Rmw { change, .. } => succeeds(change, read),
        _ => false,
    }
}

// Whether a change of this value succeeds.
fn succeeds(change: Change, read: u64) -> bool
    ensures { result ≡ is_success (applied (change_meant change) read) }
{
    change::apply(change, read).is_some()
}
