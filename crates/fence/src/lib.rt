// Fences: loom's fence and its four kinds.
#![tactic(auto)]

ghost use Rattle.std.specs.Prelude.{◌≡◌, ◌<◌, ◌≤◌};
ghost use Rattle.rules.specs.Cell.{cell_acquired, fence_acquired, fence_released, fence_seq_cst, fenced};
ghost use Rattle.rules.specs.State.{marks_of, vector, with_vector, released, causality};

use layout::of_cell::COUNT;
use layout::of_run::SEQ_CST_CAUSALITY;
use layout::of_thread::{CAUSALITY, RELEASED};
use layout::order::{ACQ_REL, ACQUIRE, RELEASE, SEQ_CST};
use layout::slots::{kth_oldest, live_stores};
use layout::{Access, Clocks, Marks, Numbers};
use synchronize::first_seen::is_seen;
use synchronize::{join_into, sync_load};

// The fence of an order. A relaxed one, which no accepted table has, does nothing.
pub fn fence(
    clocks: &mut Clocks,
    marks: &Marks,
    numbers: &Numbers,
    thread: usize,
    order: u8,
    cells: usize,
)
    requires { (thread < 5) × (cells ≤ 4) }
    ensures { clocks.new ≡ fenced clocks.old marks.now numbers.now thread cells order }
{
    match order {
        ACQUIRE => fence_acq(clocks, marks, numbers, thread, cells),
        RELEASE => fence_rel(clocks, thread),
        ACQ_REL => fence_acqrel(clocks, marks, numbers, thread, cells),
        SEQ_CST => fence_seqcst(clocks, marks, numbers, thread, cells),
        _ => {}
    }
}

// Acquires from each seen store of each cell, cells in order.
pub fn fence_acq(clocks: &mut Clocks, marks: &Marks, numbers: &Numbers, thread: usize, cells: usize)
    requires { (thread < 5) × (cells ≤ 4) }
    ensures { clocks.new ≡ fence_acquired clocks.old marks.now numbers.now thread cells }
{
    for cell in 0..cells {
        let count = numbers[COUNT + cell];
        fence_acq_cell(clocks, marks, thread, cell, count);
    }
}

// A cell's stores are visited oldest first, since what one of them brings may show another to be seen.
fn fence_acq_cell(clocks: &mut Clocks, marks: &Marks, thread: usize, cell: usize, count: u16)
    requires { (thread < 5) × (cell < 4) }
    ensures { clocks.new ≡ cell_acquired clocks.old (marks_of marks.now cell) count thread cell }
{
    let access = Access {
        thread,
        cell,
        order: ACQUIRE,
    };
    let live = live_stores(count);
    for k in 0..live {
        let slot = kth_oldest(count, k);
        let causality = clocks[CAUSALITY + thread];
        if is_seen(marks, cell, slot, causality) {
            sync_load(clocks, access, slot);
        }
    }
}

// Takes a snapshot of the thread's causality as its released vector.
pub fn fence_rel(clocks: &mut Clocks, thread: usize)
    requires { thread < 5 }
    ensures { clocks.new ≡ with_vector clocks.old (released thread) (vector clocks.old (causality thread)) }
{
    let causality = clocks[CAUSALITY + thread];
    clocks[RELEASED + thread] = causality;
}

pub fn fence_acqrel(
    clocks: &mut Clocks,
    marks: &Marks,
    numbers: &Numbers,
    thread: usize,
    cells: usize,
)
    requires { (thread < 5) × (cells ≤ 4) }
    ensures { clocks.new ≡ fence_released (fence_acquired clocks.old marks.now numbers.now thread cells) thread }
{
    fence_acq(clocks, marks, numbers, thread, cells);
    fence_rel(clocks, thread);
}

// Acquire, release, then the thread and the vector of all SeqCst fences take each other in.
pub fn fence_seqcst(
    clocks: &mut Clocks,
    marks: &Marks,
    numbers: &Numbers,
    thread: usize,
    cells: usize,
)
    requires { (thread < 5) × (cells ≤ 4) }
    ensures { clocks.new ≡ fence_seq_cst (fence_released (fence_acquired clocks.old marks.now numbers.now thread cells) thread) thread }
{
    fence_acqrel(clocks, marks, numbers, thread, cells);
    join_into(clocks, CAUSALITY + thread, SEQ_CST_CAUSALITY);
    join_into(clocks, SEQ_CST_CAUSALITY, CAUSALITY + thread);
}
