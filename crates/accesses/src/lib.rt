// The rows that access a cell or a plain cell, each once its thread has been chosen, and how a load or an RMW goes on with the
// store it is given.
#![tactic(auto)]

ghost use Rattle.std.specs.Prelude.{◌≡◌, ℕ, ◌<◌, ltb};
ghost use Rattle.rules.specs.Cell as cells;
ghost use Rattle.rules.specs.Event as events;
ghost use Rattle.rules.specs.Machine as machine;
ghost use Rattle.rules.specs.Plain.{plain_read_done, plain_write_race, plain_write_done};
ghost use Rattle.rules.specs.State as rules;
ghost use Rattle.rules.specs.Table.{opcode_in};
ghost use Rattle.layout.specs.Tables.{state};
ghost use Rattle.atomic.specs.Accesses.{access_of};
ghost use Rattle.change.specs.Changes.{change_meant};
ghost use Rattle.matches.specs.Offers.{scanned, offered};
ghost use Rattle.event.specs.Moves.{HereWithin, move_of, matched_for};
ghost use Rattle.decode.specs.Ops.{op_of, decoded_of, InRange};
ghost use Rattle.accesses.specs.Reads.{Means, read_done};

use change::Change;
use decode::Op;
use event::{Fault, Here, Moved, NO_SLOT, Site};
use layout::of_cell::COUNT;
use layout::of_store::VALUE;
use layout::of_thread::REGISTER;
use layout::{
    Access, Clocks, MAX_ATOMIC_HISTORY, MAX_THREADS, Marks, Numbers, Values, register_at, slots,
    store_at, wide16,
};
use matches::EqualOrders;
use track::Race;

// What a row reads, if it is a load or a read-modify-write.
#[derive(Clone, Copy)]
pub struct Reading {
    pub cell: usize,
    pub register: usize,
}

// A store of a value: the version, the race, the store. Its slot is that of the count before it.
pub fn store_row(
    clocks: &mut Clocks,
    marks: &mut Marks,
    values: &mut Values,
    numbers: &mut Numbers,
    access: Access,
    row: u16,
    value: u64,
) -> Result<Moved, Fault>
    requires { (access.thread < 5) × (access.cell < 4) }
    ensures { (opcode : ℕ) (m : events.Matched) → move_of result access.thread row opcode m (state clocks.new marks.new values.new numbers.new) ≡ machine.stores (state clocks.old marks.old values.old numbers.old) access.thread row opcode access.cell access.order value }
{
    let thread = access.thread;
    let cell = access.cell;
    thread::raise(clocks, thread);
    track::track_store(clocks, thread, cell)?;
    let slot = slots::index(numbers[COUNT + cell]);
    atomic::store(
        clocks,
        marks,
        values,
        numbers,
        access,
        [0; MAX_THREADS],
        value,
    );
    thread::complete(numbers, thread, vv::one_more(row));
    Ok(Moved::Done {
        slot: slot as u8,
        mask: 0,
        value,
    })
}

// An unsynchronised load of the newest store.
pub fn unsync_load_row(
    clocks: &mut Clocks,
    values: &mut Values,
    numbers: &mut Numbers,
    site: Site,
    cell: usize,
    register: usize,
) -> Result<Moved, Fault>
    requires { (site.thread < 5) × (cell < 4) × (register < 4) }
    ensures { (marks : rules.Marks) (opcode : ℕ) (m : events.Matched) → move_of result site.thread site.row opcode m (state clocks.new marks values.new numbers.new) ≡ machine.reads (cells.unsync_load_done (state clocks.old marks values.old numbers.old) site.thread cell) site.thread site.row opcode register (cells.newest (rules.number numbers.old (rules.count cell))) 0 }
{
    let thread = site.thread;
    let loaded = atomic::unsync_load(clocks, values, numbers, thread, cell);
    let slot = slots::newest(numbers[COUNT + cell]);
    put_value(values, numbers, site, register, slot as u8, 0, loaded)
}

// An exclusive change. The register takes the value found, the trace the value that the cell holds now.
pub fn with_mut_row(
    clocks: &mut Clocks,
    values: &mut Values,
    numbers: &mut Numbers,
    site: Site,
    cell: usize,
    change: Change,
    register: usize,
) -> Result<Moved, Fault>
    requires { (site.thread < 5) × (cell < 4) × (register < 4) }
    ensures { (marks : rules.Marks) (opcode : ℕ) (m : events.Matched) → move_of result site.thread site.row opcode m (state clocks.new marks values.new numbers.new) ≡ machine.leaves_in (cells.mut_done (state clocks.old marks values.old numbers.old) site.thread cell (change_meant change)) site.thread site.row opcode cell register }
{
    let thread = site.thread;
    let mutated = atomic::with_mut(clocks, values, numbers, thread, cell, change)?;
    let slot = slots::newest(numbers[COUNT + cell]);
    let left = values[VALUE + store_at(cell, slot)];
    values[REGISTER + register_at(thread, register)] = mutated.read;
    thread::complete(numbers, thread, vv::one_more(site.row));
    Ok(Moved::Done {
        slot: slot as u8,
        mask: 0,
        value: left,
    })
}

// A read of a plain cell. It has no slot, and raises no version.
pub fn plain_read_row(
    clocks: &mut Clocks,
    values: &mut Values,
    numbers: &mut Numbers,
    site: Site,
    plain: usize,
    register: usize,
) -> Result<Moved, Fault>
    requires { (site.thread < 5) × (plain < 4) × (register < 4) }
    ensures { (marks : rules.Marks) (opcode : ℕ) (m : events.Matched) → move_of result site.thread site.row opcode m (state clocks.new marks values.new numbers.new) ≡ machine.reads (plain_read_done (state clocks.old marks values.old numbers.old) site.thread plain) site.thread site.row opcode register machine.no_slot 0 }
{
    let loaded = plain::read(clocks, values, site.thread, plain);
    put_value(values, numbers, site, register, NO_SLOT, 0, loaded)
}

// A write of a plain cell, which has no slot either, and raises no version.
pub fn plain_write_row(
    clocks: &mut Clocks,
    values: &mut Values,
    numbers: &mut Numbers,
    site: Site,
    plain: usize,
    value: u64,
) -> Result<Moved, Fault>
    requires { (site.thread < 5) × (plain < 4) }
    ensures { (marks : rules.Marks) (opcode : ℕ) (m : events.Matched) → move_of result site.thread site.row opcode m (state clocks.new marks values.new numbers.new) ≡ machine.writes_unless (plain_write_race clocks.old site.thread plain) (state clocks.old marks values.old numbers.old) (plain_write_done (state clocks.old marks values.old numbers.old) site.thread plain value) site.thread site.row opcode value }
{
    let thread = site.thread;
    plain::write(clocks, values, thread, plain, value)?;
    thread::complete(numbers, thread, vv::one_more(site.row));
    Ok(Moved::Done {
        slot: NO_SLOT,
        mask: 0,
        value,
    })
}

// The stores that a load or a read-modify-write is offered, their slots at the start of `dst`; a row of another kind is
// offered none.
pub fn offers(
    clocks: &Clocks,
    marks: &Marks,
    numbers: &Numbers,
    dst: &mut [u8; MAX_ATOMIC_HISTORY],
    here: Here,
) -> Result<usize, EqualOrders>
    requires { HereWithin here }
    ensures { (values : rules.Values) → scanned result dst.new ≡ offered (matched_for (state clocks.now marks.now values numbers.now) here.site.thread (decoded_of here.row)) dst.old }
{
    let site = here.site;
    let row = here.row;
    let Some(op) = row else {
        return Ok(0);
    };
    match op {
        Op::Load { cell, order, .. } => {
            let act = Access {
                thread: site.thread,
                cell,
                order,
            };
            matches::match_load_to_stores(clocks, numbers, dst, act, marks[cell])
        }
        Op::Rmw { cell, .. } => matches::match_rmw_to_stores(clocks, numbers, dst, cell),
        _ => Ok(0),
    }
}

// Goes on with the slot that was answered, if it is live: the load or the read-modify-write itself. No other row is given one.
pub fn read_from(
    clocks: &mut Clocks,
    marks: &mut Marks,
    values: &mut Values,
    numbers: &mut Numbers,
    here: Here,
    slot: usize,
    mask: u8,
) -> Result<Moved, Fault>
    requires { HereWithin here × (slot < 7) }
    ensures { (m : events.Matched) → move_of result here.site.thread here.site.row (opcode_in (decoded_of here.row)) m (state clocks.new marks.new values.new numbers.new) ≡ machine.read_from (state clocks.old marks.old values.old numbers.old) here.site.thread here.site.row slot mask (machine.role_in (decoded_of here.row)) }
{
    let site = here.site;
    let row = here.row;
    let Some(op) = row else {
        return Err(Fault::Impossible);
    };
    let Some(Reading { cell, register }) = to_read(op) else {
        return Err(Fault::Impossible);
    };
    if !is_live(numbers, cell, slot) {
        return Err(Fault::Impossible);
    }
    let loaded = read(clocks, marks, values, numbers, site.thread, op, slot);
    put_value(values, numbers, site, register, slot as u8, mask, loaded)
}

// The cell that a load or a read-modify-write reads, and the register that takes the value.
fn to_read(op: Op) -> Option<Reading>
    requires { InRange (op_of op) }
    ensures { Means result (machine.role_of (op_of op)) }
{
    match op {
        Op::Load { cell, register, .. } => Some(Reading { cell, register }),
        Op::Rmw { cell, register, .. } => Some(Reading { cell, register }),
        _ => None,
    }
}

// The load or the read-modify-write. Another row reads nothing.
fn read(
    clocks: &mut Clocks,
    marks: &mut Marks,
    values: &mut Values,
    numbers: &mut Numbers,
    thread: usize,
    op: Op,
    slot: usize,
) -> Result<u64, Race>
    requires { (thread < 5) × (slot < 7) × InRange (op_of op) }
    ensures { access_of result (state clocks.new marks.new values.new numbers.new) ≡ read_done (state clocks.old marks.old values.old numbers.old) thread slot (machine.role_of (op_of op)) }
{
    match op {
        Op::Load { cell, order, .. } => {
            let act = Access {
                thread,
                cell,
                order,
            };
            atomic::load(clocks, marks, values, numbers, act, slot)
        }
        Op::Rmw {
            cell,
            order,
            failure,
            change,
            ..
        } => {
            let act = Access {
                thread,
                cell,
                order,
            };
            atomic::rmw(clocks, marks, values, numbers, act, change, failure, slot)
        }
        _ => Ok(0),
    }
}

// Whether a slot holds a store: document 01's "live means slot < cnt".
fn is_live(numbers: &Numbers, cell: usize, slot: usize) -> bool
    requires { cell < 4 }
    ensures { result ≡ ltb slot (rules.number numbers.now (rules.count cell)) }
{
    slot < wide16(numbers[COUNT + cell])
}

// The value read goes into the register and the trace, and the row is complete; a race stops the run.
fn put_value(
    values: &mut Values,
    numbers: &mut Numbers,
    site: Site,
    register: usize,
    slot: u8,
    mask: u8,
    loaded: Result<u64, Race>,
) -> Result<Moved, Fault>
    requires { (site.thread < 5) × (register < 4) }
    ensures { (clocks : rules.Clocks) (marks : rules.Marks) (opcode : ℕ) (m : events.Matched) → move_of result site.thread site.row opcode m (state clocks marks values.new numbers.new) ≡ machine.reads (access_of loaded (state clocks marks values.old numbers.old)) site.thread site.row opcode register slot mask }
{
    let thread = site.thread;
    let value = loaded?;
    values[REGISTER + register_at(thread, register)] = value;
    thread::complete(numbers, thread, vv::one_more(site.row));
    Ok(Moved::Done { slot, mask, value })
}
