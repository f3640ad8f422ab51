// A load record, after loom's Load: the slots that a load may read, and which of them it reads
// now.
ghost use Rattle.std.specs.Prelude.{◌≡◌, ◌+◌, ◌*◌, ◌≤◌, ◌<◌, length};
ghost use Rattle.record.specs.Fields.{record_byte, with_offers, values_at};
ghost use Rattle.record.specs.Choices.{offers, OfLoad};
ghost use Rattle.record.specs.Steps.{Moves};
ghost use Rattle.record.specs.Answers.{OfferIs, Left};

use crate::fields::{field, part, put, put_part};
use crate::{Offered, fields};
use layout::{MAX_ATOMIC_HISTORY, wide8};

// Sets the values to the seed's first n, and how many there are.
pub fn put_values(path: &mut [u8], at: usize, seed: [u8; MAX_ATOMIC_HISTORY], n: usize)
    requires { (16 * at + 16 ≤ length path.old) × (n ≤ 7) }
    ensures { path.new ≡ with_offers path.old at seed n }
{
    put_part(path, at, fields::VALUES, &seed[..n]);
    put(path, at, fields::LEN, n as u8);
}

// The value at the record's position, and the mask of all its values. None where the position is
// none of theirs or a value is no slot, as no push_load has written.
pub fn offered(path: &[u8], at: usize) -> Option<Offered>
    requires { 16 * at + 16 ≤ length path.now }
    ensures { OfLoad path.now at result }
{
    let pos = wide8(field(path, at, fields::POS));
    let len = wide8(field(path, at, fields::LEN));
    if MAX_ATOMIC_HISTORY < len || len <= pos {
        return None;
    }
    let slot = wide8(field(path, at, fields::VALUES + pos));
    if MAX_ATOMIC_HISTORY <= slot {
        return None;
    }
    with_mask(path, at, slot, len)
}

// The slot, with the mask of the record's first n values: bit i for slot i.
fn with_mask(path: &[u8], at: usize, slot: usize, n: usize) -> Option<Offered>
    requires { (16 * at + 16 ≤ length path.now) × (n ≤ 7) × (slot < 7) }
    ensures { OfferIs (offers slot 0 (values_at path.now at n)) result }
{
    let mut mask = 0;
    for value in part(path, at, fields::VALUES, n) {
        let value = wide8(*value);
        if MAX_ATOMIC_HISTORY <= value {
            return None;
        }
        mask |= 1 << value;
    }
    Some(Offered { slot, mask })
}

// How many values follow a position, which are the choices still open.
pub fn left(len: usize, pos: usize) -> u64
    ensures { Left pos len result }
{
    if MAX_ATOMIC_HISTORY < len {
        return 0;
    }
    len.saturating_sub(1).saturating_sub(pos) as u64
}

// How many of the record's values are still to be read.
pub fn open(path: &[u8], at: usize) -> u64
    requires { 16 * at + 16 ≤ length path.now }
    ensures { Left (record_byte path.now at 9) (record_byte path.now at 10) result }
{
    left(
        wide8(field(path, at, fields::LEN)),
        wide8(field(path, at, fields::POS)),
    )
}

// Goes on to the next value. Answers whether there was one.
pub fn step(path: &mut [u8], at: usize) -> bool
    requires { 16 * at + 16 ≤ length path.old }
    ensures { Moves path.old path.new at result }
{
    let next = wide8(field(path, at, fields::POS)) + 1;
    if next < wide8(field(path, at, fields::LEN)) {
        put(path, at, fields::POS, next as u8);
        return true;
    }
    false
}
