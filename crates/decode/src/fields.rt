// What a field of a row may be, and the change that three of them say.
ghost use Rattle.std.specs.Prelude.{◌≡◌, not, ◌&&◌, ltb, leb, eqb};
ghost use Rattle.rules.specs.Table as rules;
ghost use Rattle.decode.specs.Ops.{change_decoded_of};

use crate::Row;
use crate::kinds::{
    ADD, AND, COMPARE, DECREMENT, MAX, MIN, NAND, OR, SIGNED_MAX, SIGNED_MIN, SUBTRACT, SWAP, XOR,
};
use change::Change;
use layout::REGISTERS;
use layout::order::{ACQ_REL, ACQUIRE, RELAXED, RELEASE, SEQ_CST};

// The change of this kind, where the operands that it does not use are zero. All but the last use operand a; only compare and
// write uses operand b.
pub fn change_of(kind: u8, a: u64, b: u64) -> Option<Change>
    ensures { change_decoded_of result ≡ rules.change_decoded kind a b }
{
    match kind {
        SWAP => (b == 0).then_some(Change::Swap(a)),
        ADD => (b == 0).then_some(Change::Add(a)),
        SUBTRACT => (b == 0).then_some(Change::Subtract(a)),
        AND => (b == 0).then_some(Change::And(a)),
        OR => (b == 0).then_some(Change::Or(a)),
        XOR => (b == 0).then_some(Change::Xor(a)),
        NAND => (b == 0).then_some(Change::Nand(a)),
        MAX => (b == 0).then_some(Change::Max(a)),
        MIN => (b == 0).then_some(Change::Min(a)),
        SIGNED_MAX => (b == 0).then_some(Change::SignedMax(a)),
        SIGNED_MIN => (b == 0).then_some(Change::SignedMin(a)),
        COMPARE => Some(Change::Compare(a, b)),
        DECREMENT => ((a == 0) & (b == 0)).then_some(Change::Decrement),
        13..=255 => None,
    }
}

// Whether a cell or a thread exists, where there are this many.
pub fn named(object: u8, present: usize) -> bool
    ensures { result ≡ ltb object present }
{
    (object as usize) < present
}

pub fn is_register(register: u8) -> bool
    ensures { result ≡ rules.is_register register }
{
    (register as usize) < REGISTERS
}

// Whether a jump ends at a row or at the row count.
pub fn reached(target: u16, count: usize) -> bool
    ensures { result ≡ leb target count }
{
    (target as usize) <= count
}

// Whether a jump ends at another row than its own.
pub fn leads_on(target: u16, own: usize) -> bool
    ensures { result ≡ not (eqb target own) }
{
    (target as usize) != own
}

// The orders of a load, and of a change that failed.
pub fn is_load_order(order: u8) -> bool
    ensures { result ≡ rules.is_load_order order }
{
    (order <= SEQ_CST) & (order != RELEASE) & (order != ACQ_REL)
}

pub fn is_store_order(order: u8) -> bool
    ensures { result ≡ rules.is_store_order order }
{
    (order <= SEQ_CST) & (order != ACQUIRE) & (order != ACQ_REL)
}

pub fn is_fence_order(order: u8) -> bool
    ensures { result ≡ rules.is_fence_order order }
{
    (order <= SEQ_CST) & (order != RELAXED)
}

// Only a change that may fail uses a failure order.
pub fn is_failure_order(kind: u8, failure: u8) -> bool
    ensures { result ≡ rules.is_failure_order kind failure }
{
    if (kind == COMPARE) | (kind == DECREMENT) {
        return is_load_order(failure);
    }
    failure == 0
}

// What a row without a change leaves zero.
pub fn no_change(row: Row) -> bool
    ensures { result ≡ (eqb row.failure 0 && eqb row.kind 0) }
{
    (row.failure == 0) & (row.kind == 0)
}

// What a row without operands leaves zero.
pub fn no_operands(row: Row) -> bool
    ensures { result ≡ (eqb row.a 0 && eqb row.b 0) }
{
    (row.a == 0) & (row.b == 0)
}
