// The slots of a cell, by how many stores there were.
ghost use Rattle.std.specs.Prelude.{◌<◌};
ghost use Rattle.layout.specs.Slots.{Next, Newest, Live, Oldest};

use crate::MAX_ATOMIC_HISTORY;

// As many as a cell keeps, to count its stores by.
const HISTORY: u16 = MAX_ATOMIC_HISTORY as u16;

// The slot that the next store takes.
pub fn index(count: u16) -> usize
    ensures { Next count result }
{
    (count % HISTORY) as usize
}

// The slot of the newest store.
pub fn newest(count: u16) -> usize
    ensures { Newest count result }
{
    ((count % HISTORY + (HISTORY - 1)) % HISTORY) as usize
}

// How many stores are kept.
pub fn live_stores(count: u16) -> usize
    ensures { Live count result }
{
    if count < HISTORY {
        count as usize
    } else {
        MAX_ATOMIC_HISTORY
    }
}

// The slot of the k-th store, counted from the oldest that is kept.
pub fn kth_oldest(count: u16, k: usize) -> usize
    requires { k < 7 }
    ensures { Oldest count k result }
{
    if count < HISTORY {
        return k;
    }
    ((count % HISTORY) as usize + k) % MAX_ATOMIC_HISTORY
}
