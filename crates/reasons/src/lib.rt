// Which field of a refused row is wrong, and what it may be. The library's own decode judges: a row that it accepts gets the fields
// of the bad one, one after the other, and the first with which it is refused is the one that is wrong.
#![tactic(auto)]

ghost use Rattle.std.specs.Prelude.{◌≡◌, cond};
ghost use Rattle.decode.specs.Ops.{row_meant, room_meant};
ghost use Rattle.reasons.specs.Wrong.{blank_order, blank_target, first_fields, is_fit, is_opcode, wrong_in, has_register, is_change, used_if, may_operand, may_object, may_order, may_failure, may_target, may_be};

pub use decode::Room;
use decode::kinds::{COMPARE, DECREMENT};
use decode::opcodes::{
    CHECK, FENCE, JOIN, JUMP, JUMP_IF, JUMP_UNLESS, LOAD, PLAIN_READ, PLAIN_WRITE, RMW, SPURIOUS,
    STORE, STORE_REGISTER, UNSYNC_LOAD, WITH_MUT,
};
use decode::{Row, is_row};
use layout::order::{RELAXED, RELEASE};

// The fields of a row, in the order in which they are judged.
#[derive(Clone, Copy)]
pub enum Field {
    Opcode,
    Object,
    Order,
    Kind,
    Failure,
    Register,
    Target,
    A,
    B,
}

// How many fields behind the opcode are judged before each.
const OBJECT: usize = 0;

const ORDER: usize = 1;

const KIND: usize = 2;

const FAILURE: usize = 3;

const REGISTER: usize = 4;

const TARGET: usize = 5;

const A: usize = 6;

const B: usize = 7;

// Those behind the opcode, but for the last: where all before it are fine, the last is wrong.
const BEHIND: [Field; 7] = [
    Field::Object,
    Field::Order,
    Field::Kind,
    Field::Failure,
    Field::Register,
    Field::Target,
    Field::A,
];

// What a field that is used may be.
#[derive(Clone, Copy)]
pub enum May {
    AnyOpcode,
    AnyCell,
    AnyPlain,
    AnyThread,
    AnyOrder,
    LoadOrder,
    StoreOrder,
    FenceOrder,
    AnyKind,
    AnyRegister,
    AnyTarget,
    OtherTarget,
}

// Whether the opcode or the change kind does not use a field, which then may only be zero.
#[derive(Clone, Copy)]
pub enum Unused {
    ByOpcode,
    ByKind,
}

// The field that is wrong first.
pub fn wrong(row: Row, room: Room) -> Field
    ensures { result ≡ wrong_in (room_meant room) (row_meant row) }
{
    if !is_opcode(row, room) {
        return Field::Opcode;
    }
    for n in 0..BEHIND.len() {
        if !is_fit(row, room, n + 1) {
            return BEHIND[n];
        }
    }
    Field::B
}

// Whether there is this opcode, be there plain cells or not: a row of it is taken where there is one to name.
fn is_opcode(row: Row, room: Room) -> bool
    ensures { result ≡ is_opcode (room_meant room) (row_meant row) }
{
    let one = Room {
        threads: room.threads,
        cells: room.cells,
        plains: 1,
        rows: room.rows,
        row: room.row,
    };
    is_fit(row, one, OBJECT)
}

// Whether the library takes a row with the first `n` fields of this one.
fn is_fit(row: Row, room: Room, n: usize) -> bool
    ensures { result ≡ is_fit (room_meant room) (row_meant row) n }
{
    is_row(first_fields(row, room.row, n), room)
}

// The row's opcode and its first `n` fields, on a row that is accepted, if there is one of this opcode. `own` is its number.
fn first_fields(row: Row, own: usize, n: usize) -> Row
    ensures { row_meant result ≡ first_fields own (row_meant row) n }
{
    Row {
        opcode: row.opcode,
        object: field_if(OBJECT < n, row.object, 0),
        order: field_if(ORDER < n, row.order, blank_order(row.opcode)),
        failure: field_if(FAILURE < n, row.failure, 0),
        kind: field_if(KIND < n, row.kind, 0),
        register: field_if(REGISTER < n, row.register, 0),
        target: field_if(TARGET < n, row.target, blank_target(row.opcode, own)),
        a: field_if(A < n, row.a, 0),
        b: field_if(B < n, row.b, 0),
    }
}

// A fence must have an order.
fn blank_order(opcode: u8) -> u8
    ensures { result ≡ blank_order opcode }
{
    field_if(opcode == FENCE, RELEASE, RELAXED)
}

// A jump may not lead to its own row, and at row 0 that is where a target of 0 leads.
fn blank_target(opcode: u8, own: usize) -> u16
    ensures { result ≡ blank_target opcode own }
{
    field_if((opcode == JUMP) & (own == 0), 1, 0)
}

fn field_if<T: Copy>(looked: bool, field: T, other: T) -> T
    ensures { result ≡ cond looked field other }
{
    if looked { field } else { other }
}

// What this field may be in a row of this opcode and change kind.
pub fn may_be(field: Field, opcode: u8, kind: u8) -> Result<May, Unused>
    ensures { result ≡ may_be field opcode kind }
{
    match field {
        Field::Opcode => Ok(May::AnyOpcode),
        Field::Object => object_may(opcode),
        Field::Order => order_may(opcode),
        Field::Kind => used_if(is_change(opcode), May::AnyKind),
        Field::Failure => failure_may(opcode, kind),
        Field::Register => used_if(has_register(opcode), May::AnyRegister),
        Field::Target => target_may(opcode),
        Field::A | Field::B => operand_may(opcode),
    }
}

// A field that only some opcodes use.
fn used_if(test: bool, may: May) -> Result<May, Unused>
    ensures { result ≡ used_if test may }
{
    if test { Ok(may) } else { Err(Unused::ByOpcode) }
}

// The cell, the plain cell or the thread.
fn object_may(opcode: u8) -> Result<May, Unused>
    ensures { result ≡ may_object opcode }
{
    match opcode {
        LOAD | STORE | STORE_REGISTER | RMW | UNSYNC_LOAD | WITH_MUT => Ok(May::AnyCell),
        PLAIN_READ | PLAIN_WRITE => Ok(May::AnyPlain),
        JOIN => Ok(May::AnyThread),
        _ => Err(Unused::ByOpcode),
    }
}

// The order, by what opcode may have which.
fn order_may(opcode: u8) -> Result<May, Unused>
    ensures { result ≡ may_order opcode }
{
    match opcode {
        LOAD => Ok(May::LoadOrder),
        STORE | STORE_REGISTER => Ok(May::StoreOrder),
        RMW => Ok(May::AnyOrder),
        FENCE => Ok(May::FenceOrder),
        _ => Err(Unused::ByOpcode),
    }
}

// The order of a change that fails.
fn failure_may(opcode: u8, kind: u8) -> Result<May, Unused>
    ensures { result ≡ may_failure opcode kind }
{
    match (opcode, kind) {
        (RMW, COMPARE | DECREMENT) => Ok(May::LoadOrder),
        (RMW, _) => Err(Unused::ByKind),
        _ => Err(Unused::ByOpcode),
    }
}

// The target: a jump without a test may not lead to its own row.
fn target_may(opcode: u8) -> Result<May, Unused>
    ensures { result ≡ may_target opcode }
{
    match opcode {
        JUMP => Ok(May::OtherTarget),
        JUMP_IF | JUMP_UNLESS => Ok(May::AnyTarget),
        _ => Err(Unused::ByOpcode),
    }
}

// An operand that is wrong is one that is not used.
fn operand_may(opcode: u8) -> Result<May, Unused>
    ensures { result ≡ may_operand opcode }
{
    if is_change(opcode) {
        Err(Unused::ByKind)
    } else {
        Err(Unused::ByOpcode)
    }
}

fn has_register(opcode: u8) -> bool
    ensures { result ≡ has_register opcode }
{
    matches!(
        opcode,
        LOAD | STORE_REGISTER
            | RMW
            | UNSYNC_LOAD
            | WITH_MUT
            | JUMP_IF
            | JUMP_UNLESS
            | CHECK
            | SPURIOUS
            | PLAIN_READ
    )
}

fn is_change(opcode: u8) -> bool
    ensures { result ≡ is_change opcode }
{
    matches!(opcode, RMW | WITH_MUT)
}
