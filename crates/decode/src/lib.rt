// What a row says: its fields decoded into an enum with those that its opcode uses. A field that the opcode and the change kind
// do not use is zero, else the row is refused. Each promise is an equation with the definition in rules (Table).
#![tactic(auto)]

ghost use Rattle.std.specs.Prelude.{◌≡◌, ◌&&◌, ltb, eqb, ℕ};
ghost use Rattle.rules.specs.Table as rules;
ghost use Rattle.decode.specs.Ops.{op_of, decoded_of, row_meant, room_meant};

mod fields;
pub mod kinds;
pub mod opcodes;

use change::Change;
use fields::{
    change_of, is_failure_order, is_register, leads_on, named, no_change, no_operands, reached,
};
pub use fields::{is_fence_order, is_load_order, is_store_order};
use layout::order::SEQ_CST;
use layout::wide8;
use opcodes::{
    CHECK, CRITICAL, EXPLORE_STATE, FENCE, JOIN, JUMP, JUMP_IF, JUMP_UNLESS, LOAD, PLAIN_READ,
    PLAIN_WRITE, RMW, SKIP_BRANCH, SPURIOUS, STORE, STORE_REGISTER, UNSYNC_LOAD, WITH_MUT, YIELD,
};

// What a row does, with the fields that its opcode uses. They stand in an order by which a field of one case never shares its
// bytes with one of another width: then the compiler keeps each in a register of its own.
#[derive(Clone, Copy)]
pub enum Op {
    Load {
        order: u8,
        cell: usize,
        register: usize,
    },
    Store {
        order: u8,
        cell: usize,
        value: u64,
    },
    StoreRegister {
        order: u8,
        cell: usize,
        register: usize,
    },
    Rmw {
        order: u8,
        cell: usize,
        register: usize,
        change: Change,
        failure: u8,
    },
    Fence {
        order: u8,
    },
    UnsyncLoad {
        cell: usize,
        register: usize,
    },
    WithMut {
        cell: usize,
        register: usize,
        change: Change,
    },
    Yield,
    Join {
        thread: usize,
    },
    Jump {
        target: u16,
    },
    JumpIf {
        target: u16,
        register: usize,
        a: u64,
    },
    JumpUnless {
        target: u16,
        register: usize,
        a: u64,
    },
    Check {
        register: usize,
        a: u64,
    },
    Critical,
    ExploreState,
    SkipBranch,
    Spurious {
        register: usize,
    },
    PlainRead {
        plain: usize,
        register: usize,
    },
    PlainWrite {
        plain: usize,
        value: u64,
    },
}

// What a row may name: so many threads, cells and plain cells, and the rows of its thread, which a jump may lead to; and the row's
// own number, which a jump without a test may not have as its target.
#[derive(Clone, Copy)]
pub struct Room {
    pub threads: usize,
    pub cells: usize,
    pub plains: usize,
    pub rows: usize,
    pub row: usize,
}

// The fields of a row as they stand. `object` is the cell, the plain cell or the thread.
#[derive(Clone, Copy)]
pub struct Row {
    pub opcode: u8,
    pub object: u8,
    pub order: u8,
    pub failure: u8,
    pub kind: u8,
    pub register: u8,
    pub target: u16,
    pub a: u64,
    pub b: u64,
}

// What this row does, in this room. Opcodes stand here as document 01 numbers them, and from 19 on all are refused.
pub fn row_decoded(row: Row, room: Room) -> Option<Op>
    ensures { decoded_of result ≡ rules.row_decoded (room_meant room) (row_meant row) }
{
    let opcode = row.opcode;
    match opcode {
        0 => load_row(row, room.cells),
        1 => store_row(row, room.cells),
        2 => store_register_row(row, room.cells),
        3 => rmw_row(row, room.cells),
        4 => fence_row(row),
        5 => unsync_load_row(row, room.cells),
        6 => with_mut_row(row, room.cells),
        7 => bare_row(row, Op::Yield),
        8 => join_row(row, room.threads),
        9 => jump_row(row, room.rows, room.row),
        10 => jump_if_row(row, room.rows),
        11 => jump_unless_row(row, room.rows),
        12 => check_row(row),
        13 => bare_row(row, Op::Critical),
        14 => bare_row(row, Op::ExploreState),
        15 => bare_row(row, Op::SkipBranch),
        16 => spurious_row(row),
        17 => plain_read_row(row, room.plains),
        18 => plain_write_row(row, room.plains),
        19..=255 => None,
    }
}

// Whether this row says something at all: the decode's arms again, each without what it makes. One function for both would have two
// callers, and every tick would take the decoded row through memory.
pub fn is_row(row: Row, room: Room) -> bool
    ensures { result ≡ rules.is_fine (rules.row_decoded (room_meant room) (row_meant row)) }
{
    let opcode = row.opcode;
    match opcode {
        LOAD => load_row(row, room.cells).is_some(),
        STORE => store_row(row, room.cells).is_some(),
        STORE_REGISTER => store_register_row(row, room.cells).is_some(),
        RMW => is_rmw(row, room.cells),
        FENCE => fence_row(row).is_some(),
        UNSYNC_LOAD => unsync_load_row(row, room.cells).is_some(),
        WITH_MUT => with_mut_row(row, room.cells).is_some(),
        YIELD => bare_row(row, Op::Yield).is_some(),
        JOIN => join_row(row, room.threads).is_some(),
        JUMP => jump_row(row, room.rows, room.row).is_some(),
        JUMP_IF => jump_if_row(row, room.rows).is_some(),
        JUMP_UNLESS => jump_unless_row(row, room.rows).is_some(),
        CHECK => check_row(row).is_some(),
        CRITICAL => bare_row(row, Op::Critical).is_some(),
        EXPLORE_STATE => bare_row(row, Op::ExploreState).is_some(),
        SKIP_BRANCH => bare_row(row, Op::SkipBranch).is_some(),
        SPURIOUS => spurious_row(row).is_some(),
        PLAIN_READ => plain_read_row(row, room.plains).is_some(),
        PLAIN_WRITE => plain_write_row(row, room.plains).is_some(),
        19..=255 => false,
    }
}

// A load uses cell, order and the register that it loads into.
fn load_row(row: Row, cells: usize) -> Option<Op>
    ensures { decoded_of result ≡ rules.load_row cells (row_meant row) }
{
    let cell = wide8(row.object);
    let into = wide8(row.register);
    let fine = named(row.object, cells)
        & is_load_order(row.order)
        & is_register(row.register)
        & no_change(row)
        & (row.target == 0)
        & no_operands(row);
    fine.then_some(Op::Load {
        cell,
        order: row.order,
        register: into,
    })
}

// A store of operand a uses cell and order beside it.
fn store_row(row: Row, cells: usize) -> Option<Op>
    ensures { decoded_of result ≡ rules.store_row cells (row_meant row) }
{
    let fine = named(row.object, cells)
        & is_store_order(row.order)
        & no_change(row)
        & (row.register == 0)
        & (row.target == 0)
        & (row.b == 0);
    fine.then_some(Op::Store {
        cell: wide8(row.object),
        order: row.order,
        value: row.a,
    })
}

// A store of a register uses cell and order beside it.
fn store_register_row(row: Row, cells: usize) -> Option<Op>
    ensures { decoded_of result ≡ rules.store_register_row cells (row_meant row) }
{
    let fine = named(row.object, cells)
        & is_store_order(row.order)
        & is_register(row.register)
        & no_change(row)
        & (row.target == 0)
        & no_operands(row);
    fine.then_some(Op::StoreRegister {
        cell: wide8(row.object),
        order: row.order,
        register: wide8(row.register),
    })
}

// An RMW uses cell, order, change kind and register, and what its change uses.
fn rmw_row(row: Row, cells: usize) -> Option<Op>
    ensures { decoded_of result ≡ rules.rmw_row cells (row_meant row) (rules.change_decoded row.kind row.a row.b) }
{
    let change = change_of(row.kind, row.a, row.b)?;
    let fine = rmw_fields(row, cells);
    fine.then_some(Op::Rmw {
        cell: wide8(row.object),
        order: row.order,
        failure: row.failure,
        change,
        register: wide8(row.register),
    })
}

// Whether a row is an RMW. Judging does not make the row: with one caller, the function that does is compiled into the tick,
// and no tick writes a row's fields to memory for it.
fn is_rmw(row: Row, cells: usize) -> bool
    ensures { result ≡ rules.is_fine (rules.rmw_row cells (row_meant row) (rules.change_decoded row.kind row.a row.b)) }
{
    change_of(row.kind, row.a, row.b).is_some() & rmw_fields(row, cells)
}

// Whether the fields beside its change are those of an RMW.
fn rmw_fields(row: Row, cells: usize) -> bool
    ensures { result ≡ (ltb row.object cells && rules.any_order row.order && rules.is_failure_order row.kind row.failure && rules.is_register row.register && eqb row.target 0) }
{
    named(row.object, cells)
        & (row.order <= SEQ_CST)
        & is_failure_order(row.kind, row.failure)
        & is_register(row.register)
        & (row.target == 0)
}

// A fence uses the order.
fn fence_row(row: Row) -> Option<Op>
    ensures { decoded_of result ≡ rules.fence_row (row_meant row) }
{
    let fine = is_fence_order(row.order)
        & (row.object == 0)
        & no_change(row)
        & (row.register == 0)
        & (row.target == 0)
        & no_operands(row);
    fine.then_some(Op::Fence { order: row.order })
}

// An unsynchronised load uses cell and register.
fn unsync_load_row(row: Row, cells: usize) -> Option<Op>
    ensures { decoded_of result ≡ rules.unsync_load_row cells (row_meant row) }
{
    let fine = named(row.object, cells)
        & is_register(row.register)
        & (row.order == 0)
        & no_change(row)
        & (row.target == 0)
        & no_operands(row);
    fine.then_some(Op::UnsyncLoad {
        cell: wide8(row.object),
        register: wide8(row.register),
    })
}

// An exclusive change uses cell, change kind and register, and the operands of its change.
fn with_mut_row(row: Row, cells: usize) -> Option<Op>
    ensures { decoded_of result ≡ rules.with_mut_row cells (row_meant row) (rules.change_decoded row.kind row.a row.b) }
{
    let change = change_of(row.kind, row.a, row.b)?;
    let fine = named(row.object, cells)
        & is_register(row.register)
        & (row.order == 0)
        & (row.failure == 0)
        & (row.target == 0);
    fine.then_some(Op::WithMut {
        cell: wide8(row.object),
        change,
        register: wide8(row.register),
    })
}

// A yield, and the three that steer exploring, use nothing.
fn bare_row(row: Row, op: Op) -> Option<Op>
    ensures { decoded_of result ≡ rules.bare_row (op_of op) (row_meant row) }
{
    let fine = (row.object == 0)
        & (row.order == 0)
        & no_change(row)
        & (row.register == 0)
        & (row.target == 0)
        & no_operands(row);
    fine.then_some(op)
}

// A join uses the thread.
fn join_row(row: Row, threads: usize) -> Option<Op>
    ensures { decoded_of result ≡ rules.join_row threads (row_meant row) }
{
    let fine = named(row.object, threads)
        & (row.order == 0)
        & no_change(row)
        & (row.register == 0)
        & (row.target == 0)
        & no_operands(row);
    fine.then_some(Op::Join {
        thread: wide8(row.object),
    })
}

// A jump uses the target, which may be the row count but not the jump's own number: it would never end.
fn jump_row(row: Row, count: usize, own: usize) -> Option<Op>
    ensures { decoded_of result ≡ rules.jump_row count own (row_meant row) }
{
    let fine = reached(row.target, count)
        & leads_on(row.target, own)
        & (row.object == 0)
        & (row.order == 0)
        & no_change(row)
        & (row.register == 0)
        & no_operands(row);
    fine.then_some(Op::Jump { target: row.target })
}

// A jump on a test uses register, operand a and target.
fn jump_if_row(row: Row, count: usize) -> Option<Op>
    ensures { decoded_of result ≡ rules.jump_on_row rules.jump_if count (row_meant row) }
{
    let register = wide8(row.register);
    let a = row.a;
    let target = row.target;
    jump_on_row(
        row,
        count,
        Op::JumpIf {
            register,
            a,
            target,
        },
    )
}

fn jump_unless_row(row: Row, count: usize) -> Option<Op>
    ensures { decoded_of result ≡ rules.jump_on_row rules.jump_unless count (row_meant row) }
{
    let register = wide8(row.register);
    let a = row.a;
    let target = row.target;
    jump_on_row(
        row,
        count,
        Op::JumpUnless {
            register,
            a,
            target,
        },
    )
}

// What both ask of a row that is to be this jump.
fn jump_on_row(row: Row, count: usize, op: Op) -> Option<Op>
    ensures { decoded_of result ≡ rules.jump_on_row (λ (register a target : ℕ). op_of op) count (row_meant row) }
{
    let fine = is_register(row.register)
        & reached(row.target, count)
        & (row.object == 0)
        & (row.order == 0)
        & no_change(row)
        & (row.b == 0);
    fine.then_some(op)
}

// A check uses register and operand a.
fn check_row(row: Row) -> Option<Op>
    ensures { decoded_of result ≡ rules.check_row (row_meant row) }
{
    let fine = is_register(row.register)
        & (row.object == 0)
        & (row.order == 0)
        & no_change(row)
        & (row.target == 0)
        & (row.b == 0);
    fine.then_some(Op::Check {
        register: wide8(row.register),
        a: row.a,
    })
}

// A spurious choice uses the register.
fn spurious_row(row: Row) -> Option<Op>
    ensures { decoded_of result ≡ rules.spurious_row (row_meant row) }
{
    let fine = is_register(row.register)
        & (row.object == 0)
        & (row.order == 0)
        & no_change(row)
        & (row.target == 0)
        & no_operands(row);
    fine.then_some(Op::Spurious {
        register: wide8(row.register),
    })
}

// A plain read uses the plain cell and the register.
fn plain_read_row(row: Row, plains: usize) -> Option<Op>
    ensures { decoded_of result ≡ rules.plain_read_row plains (row_meant row) }
{
    let fine = named(row.object, plains)
        & is_register(row.register)
        & (row.order == 0)
        & no_change(row)
        & (row.target == 0)
        & no_operands(row);
    fine.then_some(Op::PlainRead {
        plain: wide8(row.object),
        register: wide8(row.register),
    })
}

// A plain write uses the plain cell and operand a.
fn plain_write_row(row: Row, plains: usize) -> Option<Op>
    ensures { decoded_of result ≡ rules.plain_write_row plains (row_meant row) }
{
    let fine = named(row.object, plains)
        & (row.order == 0)
        & no_change(row)
        & (row.register == 0)
        & (row.target == 0)
        & (row.b == 0);
    fine.then_some(Op::PlainWrite {
        plain: wide8(row.object),
        value: row.a,
    })
}

// The opcode's number.
pub fn opcode(op: Op) -> u8
    ensures { result ≡ rules.opcode_of (op_of op) }
{
    match op {
        Op::Load { .. } => LOAD,
        Op::Store { .. } => STORE,
        Op::StoreRegister { .. } => STORE_REGISTER,
        Op::Rmw { .. } => RMW,
        Op::Fence { .. } => FENCE,
        Op::UnsyncLoad { .. } => UNSYNC_LOAD,
        Op::WithMut { .. } => WITH_MUT,
        Op::Yield => YIELD,
        Op::Join { .. } => JOIN,
        Op::Jump { .. } => JUMP,
        Op::JumpIf { .. } => JUMP_IF,
        Op::JumpUnless { .. } => JUMP_UNLESS,
        Op::Check { .. } => CHECK,
        Op::Critical => CRITICAL,
        Op::ExploreState => EXPLORE_STATE,
        Op::SkipBranch => SKIP_BRANCH,
        Op::Spurious { .. } => SPURIOUS,
        Op::PlainRead { .. } => PLAIN_READ,
        Op::PlainWrite { .. } => PLAIN_WRITE,
    }
}
