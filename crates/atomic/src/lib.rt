// An atomic cell, after loom's rt/atomic.rs: what a store, a load, a read-modify-write, an unsynchronised load and an
// exclusive change do to the lent state, each once its thread has been chosen.
#![tactic(auto)]

ghost use Rattle.std.specs.Prelude.{◌≡◌, ◌<◌};
ghost use Rattle.rules.specs.Cell.{load_done, store_done, succeeded, rmw_done, unsync_load_done, seq_cst_flag};
ghost use Rattle.rules.specs.State as rules;
ghost use Rattle.layout.specs.Tables.{state};
ghost use Rattle.change.specs.Changes.{change_meant};
ghost use Rattle.atomic.specs.Accesses.{access_of};
ghost use Rattle.atomic.specs.Exclusive.{Mutates};

use change::Change;
use coherence::{apply_load_coherence, store_order, touch};
use layout::of_cell::COUNT;
use layout::of_store::{HAPPENS_BEFORE, MODIFICATION_ORDER, SEQ_CST, SYNC, VALUE};
use layout::of_thread::CAUSALITY;
use layout::slots::{index, newest};
use layout::{Access, Clocks, MAX_THREADS, Marks, Numbers, Values, order, store_at};
use synchronize::first_seen::fresh_row;
use synchronize::{sync_load, sync_store};
use track::Race;

// The value that an exclusive change found, and the one it left.
#[derive(Clone, Copy)]
pub struct Mutated {
    pub read: u64,
    pub left: u64,
}

// Loads from a slot: race, coherence, touch, sync, in that order.
pub fn load(
    clocks: &mut Clocks,
    marks: &mut Marks,
    values: &Values,
    numbers: &Numbers,
    access: Access,
    slot: usize,
) -> Result<u64, Race>
    requires { (access.thread < 5) × (access.cell < 4) × (slot < 7) }
    ensures { access_of result (state clocks.new marks.new values.now numbers.now) ≡ load_done (state clocks.old marks.old values.now numbers.now) access.thread access.cell slot access.order }
{
    let thread = access.thread;
    let cell = access.cell;
    track::track_load(clocks, thread, cell)?;
    apply_load_coherence(clocks, marks, numbers, access, slot);
    touch(clocks, marks, access, slot);
    sync_load(clocks, access, slot);
    Ok(values[VALUE + store_at(cell, slot)])
}

// Stores a value in the place of the oldest that is kept. The sync vector is that of a fresh store, or of the store that a
// read-modify-write read.
pub fn store(
    clocks: &mut Clocks,
    marks: &mut Marks,
    values: &mut Values,
    numbers: &mut Numbers,
    access: Access,
    sync: [u16; MAX_THREADS],
    value: u64,
)
    requires { (access.thread < 5) × (access.cell < 4) }
    ensures { state clocks.new marks.new values.new numbers.new ≡ store_done (state clocks.old marks.old values.old numbers.old) access.thread access.cell sync value access.order }
{
    let thread = access.thread;
    let cell = access.cell;
    let count = numbers[COUNT + cell];
    let slot = index(count);
    let at = store_at(cell, slot);
    numbers[COUNT + cell] = vv::one_more(count);
    let causality = clocks[CAUSALITY + thread];
    // The slot that is replaced still counts here: its order is joined by the marks that it had.
    let modification_order = store_order(clocks, marks, access, count);
    let sync = sync_store(clocks, access, sync);
    clocks[HAPPENS_BEFORE + at] = causality;
    clocks[MODIFICATION_ORDER + at] = modification_order;
    clocks[SYNC + at] = sync;
    marks[cell][slot] = fresh_row(thread, causality[thread]);
    values[VALUE + at] = value;
    numbers[SEQ_CST + at] = is_seq_cst(access.order);
}

// Reads a slot and, if the change succeeds, stores what it makes of the value. The access's order is that of success.
pub fn rmw(
    clocks: &mut Clocks,
    marks: &mut Marks,
    values: &mut Values,
    numbers: &mut Numbers,
    access: Access,
    change: Change,
    failure: u8,
    slot: usize,
) -> Result<u64, Race>
    requires { (access.thread < 5) × (access.cell < 4) × (slot < 7) }
    ensures { access_of result (state clocks.new marks.new values.new numbers.new) ≡ rmw_done (state clocks.old marks.old values.old numbers.old) access.thread access.cell slot (change_meant change) access.order failure }
{
    let thread = access.thread;
    let cell = access.cell;
    track::track_load(clocks, thread, cell)?;
    apply_load_coherence(clocks, marks, numbers, access, slot);
    touch(clocks, marks, access, slot);
    let prev = values[VALUE + store_at(cell, slot)];
    let Some(next) = change::apply(change, prev) else {
        let failed = Access {
            thread,
            cell,
            order: failure,
        };
        sync_load(clocks, failed, slot);
        return Ok(prev);
    };
    rmw_store(clocks, marks, values, numbers, access, slot, prev, next)
}

// The rest of a read-modify-write whose change has succeeded: `next` is stored in the place of `prev`, read from the slot.
fn rmw_store(
    clocks: &mut Clocks,
    marks: &mut Marks,
    values: &mut Values,
    numbers: &mut Numbers,
    access: Access,
    slot: usize,
    prev: u64,
    next: u64,
) -> Result<u64, Race>
    requires { (access.thread < 5) × (access.cell < 4) × (slot < 7) }
    ensures { access_of result (state clocks.new marks.new values.new numbers.new) ≡ succeeded (state clocks.old marks.old values.old numbers.old) access.thread access.cell (rules.store_at access.cell slot) prev next access.order }
{
    let cell = access.cell;
    track::track_store(clocks, access.thread, cell)?;
    sync_load(clocks, access, slot);
    // The new store starts from the sync of the one read, which makes a release sequence of the two.
    let sync = clocks[SYNC + store_at(cell, slot)];
    store(clocks, marks, values, numbers, access, sync, next);
    Ok(prev)
}

// Reads the newest store without synchronisation.
pub fn unsync_load(
    clocks: &mut Clocks,
    values: &Values,
    numbers: &Numbers,
    thread: usize,
    cell: usize,
) -> Result<u64, Race>
    requires { (thread < 5) × (cell < 4) }
    ensures { (marks : rules.Marks) → access_of result (state clocks.new marks values.now numbers.now) ≡ unsync_load_done (state clocks.old marks values.now numbers.now) thread cell }
{
    track::track_unsync_load(clocks, thread, cell)?;
    let slot = newest(numbers[COUNT + cell]);
    Ok(values[VALUE + store_at(cell, slot)])
}

// Changes the newest store's value in place. A change that fails still counts as a mutation.
pub fn with_mut(
    clocks: &mut Clocks,
    values: &mut Values,
    numbers: &Numbers,
    thread: usize,
    cell: usize,
    change: Change,
) -> Result<Mutated, Race>
    requires { (thread < 5) × (cell < 4) }
    ensures { Mutates result clocks.old clocks.new values.old values.new numbers.now thread cell (change_meant change) }
{
    track::track_unsync_mut(clocks, thread, cell)?;
    let slot = newest(numbers[COUNT + cell]);
    let at = VALUE + store_at(cell, slot);
    let read = values[at];
    let Some(left) = change::apply(change, read) else {
        return Ok(Mutated { read, left: read });
    };
    values[at] = left;
    Ok(Mutated { read, left })
}

fn is_seq_cst(order: u8) -> u16
    ensures { result ≡ seq_cst_flag order }
{
    if order == order::SEQ_CST { 1 } else { 0 }
}
