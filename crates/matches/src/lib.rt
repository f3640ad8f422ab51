// Which stores a load or a read-modify-write may return: loom's match_load_to_stores and match_rmw_to_stores.
#![tactic(auto)]

ghost use Rattle.std.specs.Prelude.{◌≡◌, ◌<◌};
ghost use Rattle.rules.specs.Cell.{all_seq_cst, fate_from, live_in, rmw_fate, matched_load, matched_rmw, order_of};
ghost use Rattle.vv.specs.Compared.{ordering_of};
ghost use Rattle.matches.specs.Offers.{fate_of, drops, scanned, offered};

use layout::of_cell::COUNT;
use layout::of_store::{MODIFICATION_ORDER, SEQ_CST};
use layout::of_thread::{CAUSALITY, LAST_YIELD};
use layout::slots::live_stores;
use layout::{Access, Clocks, MAX_ATOMIC_HISTORY, MAX_THREADS, Numbers, order, store_at};
use synchronize::first_seen::{FirstSeen, seen_slots};
use vv::{Ordering, VersionVec};

// Equal orders were met: answer 13. There loom asserts that no two stores of a cell have the same order, with the remark that
// this sometimes fails; here it is an answer.
#[derive(Clone, Copy)]
pub struct EqualOrders;

// Find all stores that could be returned by an atomic load: their slots, rising, at the start of `dst`. A store is offered
// unless a newer one has been seen in the thread's causality: then to return it would go back in modification order.
pub fn match_load_to_stores(
    clocks: &Clocks,
    numbers: &Numbers,
    dst: &mut [u8; MAX_ATOMIC_HISTORY],
    access: Access,
    marks: [[u16; MAX_THREADS]; MAX_ATOMIC_HISTORY],
) -> Result<usize, EqualOrders>
    requires { (access.thread < 5) × (access.cell < 4) }
    ensures { scanned result dst.new ≡ offered (matched_load clocks.now marks numbers.now access.thread access.cell access.order) dst.old }
{
    let thread = access.thread;
    let cell = access.cell;
    let causality = clocks[CAUSALITY + thread];
    let seen = seen_slots(marks, causality);
    let last_yield = numbers[LAST_YIELD + thread];
    let live = live_stores(numbers[COUNT + cell]);
    let mut n = 0;
    for i in 0..live {
        let row = marks[i];
        let first = FirstSeen { versions: row };
        let before_yield = first.is_seen_before_yield(thread, last_yield);
        if load_fate(clocks, numbers, access, i, seen, before_yield)? {
            dst[n] = i as u8;
            n += 1;
        }
    }
    Ok(n)
}

// Whether store i is kept: it is dropped at the first newer live one that is seen, or if i was seen before the yield, or if the
// load and both stores are SeqCst. A thread yields to wait for another, so what it saw before it is not returned again where there is
// a newer store: else a loop that waits for the newer one could read the older for ever. Equal orders count only if they are
// met before the store is dropped, since loom's scan asserts and drops in one walk.
fn load_fate(
    clocks: &Clocks,
    numbers: &Numbers,
    access: Access,
    i: usize,
    seen: [bool; MAX_ATOMIC_HISTORY],
    before_yield: bool,
) -> Result<bool, EqualOrders>
    requires { (access.cell < 4) × (i < 7) }
    ensures { fate_of result ≡ fate_from clocks.now access.cell i (drops seen before_yield numbers.now access.cell access.order i) (live_in numbers.now access.cell) 0 }
{
    let cell = access.cell;
    let live = live_stores(numbers[COUNT + cell]);
    for j in 0..live {
        if j != i {
            match compare_orders(clocks, cell, i, j) {
                Ordering::Equal => return Err(EqualOrders),
                Ordering::Less => {
                    if seen[j] || before_yield || all_seq_cst(numbers, access, i, j) {
                        return Ok(false);
                    }
                }
                Ordering::Neither => {}
            }
        }
    }
    Ok(true)
}

// Find all stores that a read-modify-write could read: unlike a load, only the newest, those below no other.
pub fn match_rmw_to_stores(
    clocks: &Clocks,
    numbers: &Numbers,
    dst: &mut [u8; MAX_ATOMIC_HISTORY],
    cell: usize,
) -> Result<usize, EqualOrders>
    requires { cell < 4 }
    ensures { scanned result dst.new ≡ offered (matched_rmw clocks.now numbers.now cell) dst.old }
{
    let live = live_stores(numbers[COUNT + cell]);
    let mut n = 0;
    for i in 0..live {
        if rmw_fate(clocks, numbers, cell, i)? {
            dst[n] = i as u8;
            n += 1;
        }
    }
    Ok(n)
}

// Whether store i is kept: it is dropped at the first newer live one.
fn rmw_fate(clocks: &Clocks, numbers: &Numbers, cell: usize, i: usize) -> Result<bool, EqualOrders>
    requires { (cell < 4) × (i < 7) }
    ensures { fate_of result ≡ rmw_fate clocks.now numbers.now cell i }
{
    let live = live_stores(numbers[COUNT + cell]);
    for j in 0..live {
        if j != i {
            match compare_orders(clocks, cell, i, j) {
                Ordering::Equal => return Err(EqualOrders),
                Ordering::Less => return Ok(false),
                Ordering::Neither => {}
            }
        }
    }
    Ok(true)
}

// Store i against store j in modification order.
fn compare_orders(clocks: &Clocks, cell: usize, i: usize, j: usize) -> Ordering
    requires { (cell < 4) × (i < 7) × (j < 7) }
    ensures { result ≡ ordering_of (order_of clocks.now cell i) (order_of clocks.now cell j) }
{
    let a = clocks[MODIFICATION_ORDER + store_at(cell, i)];
    let b = clocks[MODIFICATION_ORDER + store_at(cell, j)];
    let first = VersionVec { versions: a };
    let second = VersionVec { versions: b };
    first.partial_cmp(second)
}

// Whether the load and both stores are SeqCst.
fn all_seq_cst(numbers: &Numbers, access: Access, i: usize, j: usize) -> bool
    requires { (access.cell < 4) × (i < 7) × (j < 7) }
    ensures { result ≡ all_seq_cst numbers.now access.cell i j access.order }
{
    let cell = access.cell;
    let a = numbers[SEQ_CST + store_at(cell, i)];
    let b = numbers[SEQ_CST + store_at(cell, j)];
    (access.order == order::SEQ_CST) & (a == 1) & (b == 1)
}
