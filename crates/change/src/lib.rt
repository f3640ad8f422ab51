// What a read-modify-write or an exclusive change makes of a value: an enum in the place of loom's closures.
#![tactic(auto)]

ghost use Rattle.std.specs.Prelude.{◌≡◌, nat_lt};
ghost use Rattle.rules.specs.Change as rules;
ghost use Rattle.change.specs.Changes.{change_meant, changed_of};

// The thirteen changes, with their operands.
#[derive(Clone, Copy)]
pub enum Change {
    Swap(u64),
    Add(u64),
    Subtract(u64),
    And(u64),
    Or(u64),
    Xor(u64),
    Nand(u64),
    Max(u64),
    Min(u64),
    SignedMax(u64),
    SignedMin(u64),
    Compare(u64, u64),
    Decrement,
}

// What a change answers: the value to be written, or none where it fails. Only a comparison and a decrement can fail.
pub fn apply(change: Change, value: u64) -> Option<u64>
    ensures { changed_of result ≡ rules.applied (change_meant change) value }
{
    match change {
        Change::Swap(a) => Some(a),
        Change::Add(a) => Some(std::num::wrapping_add_u64(value, a)),
        Change::Subtract(a) => Some(std::num::wrapping_sub_u64(value, a)),
        Change::And(a) => Some(value & a),
        Change::Or(a) => Some(value | a),
        Change::Xor(a) => Some(value ^ a),
        Change::Nand(a) => Some(!(value & a)),
        Change::Max(a) => Some(value.max(a)),
        Change::Min(a) => Some(value.min(a)),
        Change::SignedMax(a) => Some(signed_greater(value, a)),
        Change::SignedMin(a) => Some(signed_lesser(value, a)),
        Change::Compare(a, b) => compare(value, a, b),
        Change::Decrement => decrement(value),
    }
}

// Whether x is below y as signed numbers: the half from 2^63 on stands below the other.
fn signed_less(x: u64, y: u64) -> bool
    ensures { result ≡ nat_lt (rules.signed x) (rules.signed y) }
{
    let half = 0x8000_0000_0000_0000;
    std::num::wrapping_add_u64(x, half) < std::num::wrapping_add_u64(y, half)
}

fn signed_greater(x: u64, y: u64) -> u64
    ensures { result ≡ rules.greater (nat_lt (rules.signed x) (rules.signed y)) x y }
{
    if signed_less(x, y) { y } else { x }
}

fn signed_lesser(x: u64, y: u64) -> u64
    ensures { result ≡ rules.lesser (nat_lt (rules.signed x) (rules.signed y)) x y }
{
    if signed_less(x, y) { x } else { y }
}

fn compare(value: u64, expected: u64, new: u64) -> Option<u64>
    ensures { changed_of result ≡ rules.applied (rules.compare expected new) value }
{
    if value == expected { Some(new) } else { None }
}

fn decrement(value: u64) -> Option<u64>
    ensures { changed_of result ≡ rules.applied rules.decrement value }
{
    if value == 0 { None } else { Some(value - 1) }
}
