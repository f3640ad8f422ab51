// Modification order, after loom's rt/atomic.rs: which order and mark a load leaves on the store that it reads, and which order
// a new store has.
//
// Modification order is partial, a vector for each store. loom's four coherences are kept in it:
// write-write, a store comes after every store that happened before it (store_order);
// read-write, a store comes after every store that was read before it (store_order);
// write-read, the store that a load reads comes after every store that happened before the load (apply_load_coherence);
// read-read, the store that a load reads comes after every store that was read before the load (apply_load_coherence).
#![tactic(auto)]

ghost use Rattle.std.specs.Prelude.{◌≡◌, ◌<◌};
ghost use Rattle.rules.specs.Cell.{coherent, touch_done, store_order};
ghost use Rattle.rules.specs.State.{marks_of};
ghost use Rattle.rules.specs.Vector.{less};

use layout::of_cell::COUNT;
use layout::of_store::{HAPPENS_BEFORE, MODIFICATION_ORDER};
use layout::of_thread::CAUSALITY;
use layout::slots::live_stores;
use layout::{Access, Clocks, MAX_THREADS, Marks, Numbers, UNSEEN, store_at};
use synchronize::first_seen::{is_seen, touched_row};
use synchronize::join;
use vv::VersionVec;

// The chosen store's order takes in those of the stores that must not come after it. A store that is seen was read by an
// action in the thread's causality, before this load: read-read coherence. A store that happened before this load is
// write-read coherence.
pub fn apply_load_coherence(
    clocks: &mut Clocks,
    marks: &Marks,
    numbers: &Numbers,
    access: Access,
    slot: usize,
)
    requires { (access.thread < 5) × (access.cell < 4) × (slot < 7) }
    ensures { clocks.new ≡ coherent clocks.old (marks_of marks.now access.cell) numbers.now access.thread access.cell slot }
{
    let thread = access.thread;
    let cell = access.cell;
    let causality = clocks[CAUSALITY + thread];
    let chosen = MODIFICATION_ORDER + store_at(cell, slot);
    let live = live_stores(numbers[COUNT + cell]);
    let mut order = clocks[chosen];
    for i in 0..live {
        if i != slot {
            let at = store_at(cell, i);
            let before = clocks[HAPPENS_BEFORE + at];
            // Read-read on the left, write-read on the right.
            if is_seen(marks, cell, i, causality) || is_before(before, causality) {
                let other = clocks[MODIFICATION_ORDER + at];
                let both = join(order, other);
                order = both;
            }
        }
    }
    clocks[chosen] = order;
}

// The thread's mark on a store that it reads, where it has none yet.
pub fn touch(clocks: &Clocks, marks: &mut Marks, access: Access, slot: usize)
    requires { (access.thread < 5) × (access.cell < 4) × (slot < 7) }
    ensures { marks.new ≡ touch_done clocks.now marks.old access.thread access.cell slot }
{
    let thread = access.thread;
    let cell = access.cell;
    let row = marks[cell][slot];
    if row[thread] != UNSEEN {
        return;
    }
    let causality = clocks[CAUSALITY + thread];
    marks[cell][slot] = touched_row(row, thread, causality[thread]);
}

// The place of a new store in modification order: after all that its thread knows, and after each store it has seen of the
// `count` before it, by the cell's marks as they were.
pub fn store_order(clocks: &Clocks, marks: &Marks, access: Access, count: u16) -> [u16; MAX_THREADS]
    requires { (access.thread < 5) × (access.cell < 4) }
    ensures { result ≡ store_order clocks.now (marks_of marks.now access.cell) count access.thread access.cell }
{
    let thread = access.thread;
    let cell = access.cell;
    let causality = clocks[CAUSALITY + thread];
    let live = live_stores(count);
    // To start with the causality is write-write coherence.
    let mut order = causality;
    for slot in 0..live {
        // Read-write coherence.
        if is_seen(marks, cell, slot, causality) {
            let other = clocks[MODIFICATION_ORDER + store_at(cell, slot)];
            let both = join(order, other);
            order = both;
        }
    }
    order
}

fn is_before(a: [u16; MAX_THREADS], b: [u16; MAX_THREADS]) -> bool
    ensures { result ≡ less a b }
{
    let first = VersionVec { versions: a };
    first.less(VersionVec { versions: b })
}
