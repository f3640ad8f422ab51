// The rows that access no cell, each once it has begun, and how a row begins.
#![tactic(auto)]

ghost use Rattle.std.specs.Prelude.{◌≡◌, cond, ℕ, ◌<◌, ◌≤◌, Ok};
ghost use Rattle.rules.specs.Event.{Matched};
ghost use Rattle.rules.specs.Machine as machine;
ghost use Rattle.rules.specs.State as rules;
ghost use Rattle.rules.specs.Table.{cells_of, opcode_in};
ghost use Rattle.rules.specs.Vector.{one_more};
ghost use Rattle.layout.specs.Tables.{state};
ghost use Rattle.event.specs.Moves.{HereWithin, move_of};
ghost use Rattle.decode.specs.Ops.{op_of, decoded_of, InRange};
ghost use Rattle.rows.specs.Begins.{begun_to};
ghost use Rattle.rows.specs.Pendings.{Pends};

use decode::Op;
use event::{BARE_DONE, Fault, Here, Moved, NO_SLOT, Question, Site};
use layout::of_run::{EXPLORING, ROWS_BEGUN, SKIPPING};
use layout::of_thread::{CAUSALITY, OPERATES_ON, OPERATION, PHASE, REGISTER, ROWS, SCHEDULE};
use layout::{Clocks, Marks, Numbers, Operation, Values, action, register_at};
use synchronize::join_into;

// Begins a row, if fewer than the limit have begun. Opcodes 0 to 3 set their operation and call the scheduling first; where the
// event is that it moves, the row is to act at once.
pub fn begin(numbers: &mut Numbers, limit: u16, thread: usize, op: Op) -> Result<Moved, Fault>
    requires { (thread < 5) × InRange (op_of op) }
    ensures { (clocks : rules.Clocks) (marks : rules.Marks) (values : rules.Values) (k opcode : ℕ) (m : Matched) → move_of result thread k opcode m (state clocks marks values numbers.new) ≡ begun_to limit (state clocks marks values numbers.old) thread (op_of op) }
{
    if limit <= numbers[ROWS_BEGUN] {
        return Err(Fault::Rows);
    }
    numbers[ROWS_BEGUN] = vv::one_more(numbers[ROWS_BEGUN]);
    numbers[ROWS + thread] = vv::one_more(numbers[ROWS + thread]);
    numbers[PHASE + thread] = thread::TO_ACT;
    let Some(operation) = pending_of(op) else {
        return Ok(Moved::Moves);
    };
    numbers[OPERATION + thread] = operation.action;
    numbers[OPERATES_ON + thread] = operation.cell as u16;
    Ok(Moved::Asks {
        question: Question::Thread,
        yielded: false,
    })
}

// The pending operation that a row sets, with its cell; a row of opcodes from 4 on sets none.
fn pending_of(op: Op) -> Option<Operation>
    requires { InRange (op_of op) }
    ensures { Pends result (machine.pending_of (op_of op)) }
{
    match op {
        Op::Load { cell, .. } => on(action::A_LOAD, cell),
        Op::Store { cell, .. } => on(action::A_STORE, cell),
        Op::StoreRegister { cell, .. } => on(action::A_STORE, cell),
        Op::Rmw { cell, .. } => on(action::A_RMW, cell),
        _ => None,
    }
}

fn on(action: u16, cell: usize) -> Option<Operation>
    ensures { result ≡ Some (record { action = action; cell = cell }) }
{
    Some(Operation { action, cell })
}

// A row that leaves neither slot nor value in the trace.
pub fn done(numbers: &mut Numbers, site: Site) -> Moved
    requires { site.thread < 5 }
    ensures { (clocks : rules.Clocks) (marks : rules.Marks) (values : rules.Values) (opcode : ℕ) (m : Matched) → move_of (Ok result) site.thread site.row opcode m (state clocks marks values numbers.new) ≡ machine.done (state clocks marks values numbers.old) site.thread site.row opcode }
{
    thread::complete(numbers, site.thread, vv::one_more(site.row));
    BARE_DONE
}

pub fn fence_row(
    clocks: &mut Clocks,
    marks: &Marks,
    numbers: &mut Numbers,
    site: Site,
    order: u8,
    cells: usize,
) -> Moved
    requires { (site.thread < 5) × (cells ≤ 4) }
    ensures { (p : machine.Program) (values : rules.Values) (opcode : ℕ) (m : Matched) → cells_of p.table ≡ cells → move_of (Ok result) site.thread site.row opcode m (state clocks.new marks.now values numbers.new) ≡ machine.done (machine.fences p (state clocks.old marks.now values numbers.old) site.thread order) site.thread site.row opcode }
{
    let thread = site.thread;
    thread::raise(clocks, thread);
    fence::fence(clocks, marks, numbers, thread, order, cells);
    done(numbers, site)
}

// The row is complete before its scheduling, which alone can fault.
pub fn yield_row(clocks: &Clocks, numbers: &mut Numbers, site: Site) -> Moved
    requires { site.thread < 5 }
    ensures { (marks : rules.Marks) (values : rules.Values) (opcode : ℕ) (m : Matched) → move_of (Ok result) site.thread site.row opcode m (state clocks.now marks values numbers.new) ≡ machine.schedules (machine.completed (machine.yield_done (state clocks.now marks values numbers.old) site.thread) site.thread (one_more site.row)) (machine.entry site.thread site.row opcode machine.no_slot 0 0) }
{
    let thread = site.thread;
    thread::set_yield(clocks, numbers, thread);
    thread::complete(numbers, thread, vv::one_more(site.row));
    Moved::Asks {
        question: Question::Thread,
        yielded: true,
    }
}

// Goes through if the target has ended, and takes its causality and schedule vector; else blocks within the row.
pub fn join_row(clocks: &mut Clocks, numbers: &mut Numbers, site: Site, target: usize) -> Moved
    requires { (site.thread < 5) × (target < 5) }
    ensures { (marks : rules.Marks) (values : rules.Values) (opcode : ℕ) (m : Matched) → move_of (Ok result) site.thread site.row opcode m (state clocks.new marks values numbers.new) ≡ machine.joins (state clocks.old marks values numbers.old) site.thread site.row opcode target }
{
    let thread = site.thread;
    if thread::is_ended(numbers, target) {
        thread::raise(clocks, thread);
        join_into(clocks, CAUSALITY + thread, CAUSALITY + target);
        join_into(clocks, SCHEDULE + thread, SCHEDULE + target);
        return done(numbers, site);
    }
    thread::set_blocked(numbers, thread, target);
    Moved::Asks {
        question: Question::Thread,
        yielded: false,
    }
}

// A jump that is taken goes to its target, another to the next row.
pub fn jump_row(numbers: &mut Numbers, site: Site, taken: bool, target: u16) -> Moved
    requires { site.thread < 5 }
    ensures { (clocks : rules.Clocks) (marks : rules.Marks) (values : rules.Values) (opcode : ℕ) (m : Matched) → move_of (Ok result) site.thread site.row opcode m (state clocks marks values numbers.new) ≡ machine.jumps (state clocks marks values numbers.old) site.thread site.row opcode taken target }
{
    if !taken {
        return done(numbers, site);
    }
    thread::complete(numbers, site.thread, target);
    BARE_DONE
}

pub fn check_row(numbers: &mut Numbers, site: Site, holds: bool) -> Result<Moved, Fault>
    requires { site.thread < 5 }
    ensures { (clocks : rules.Clocks) (marks : rules.Marks) (values : rules.Values) (opcode : ℕ) (m : Matched) → move_of result site.thread site.row opcode m (state clocks marks values numbers.new) ≡ machine.checks (state clocks marks values numbers.old) site.thread site.row opcode holds }
{
    if !holds {
        return Err(Fault::Check);
    }
    Ok(done(numbers, site))
}

// `critical` stops exploring, `explore_state` explores again; each is wrong where it would change nothing. While skipping they
// do nothing.
pub fn explore_row(numbers: &mut Numbers, site: Site, on: bool) -> Result<Moved, Fault>
    requires { site.thread < 5 }
    ensures { (clocks : rules.Clocks) (marks : rules.Marks) (values : rules.Values) (opcode : ℕ) (m : Matched) → move_of result site.thread site.row opcode m (state clocks marks values numbers.new) ≡ machine.explores (state clocks marks values numbers.old) site.thread site.row opcode on }
{
    let flag = u16::from(on);
    if numbers[SKIPPING] == 1 {
        return Ok(done(numbers, site));
    }
    if numbers[EXPLORING] == flag {
        return Err(Fault::Flags);
    }
    numbers[EXPLORING] = flag;
    Ok(done(numbers, site))
}

// Explores no more in this execution.
pub fn skip_branch(numbers: &mut Numbers, site: Site) -> Moved
    requires { site.thread < 5 }
    ensures { (clocks : rules.Clocks) (marks : rules.Marks) (values : rules.Values) (opcode : ℕ) (m : Matched) → move_of (Ok result) site.thread site.row opcode m (state clocks marks values numbers.new) ≡ machine.done (machine.skipped (state clocks marks values numbers.old)) site.thread site.row opcode }
{
    numbers[EXPLORING] = 0;
    numbers[SKIPPING] = 1;
    done(numbers, site)
}

// Goes on with the bit that was answered for `branch_spurious`. No other row is given one.
pub fn take_bit(
    values: &mut Values,
    numbers: &mut Numbers,
    here: Here,
    bit: bool,
) -> Result<Moved, Fault>
    requires { HereWithin here }
    ensures { (clocks : rules.Clocks) (marks : rules.Marks) (m : Matched) → move_of result here.site.thread here.site.row (opcode_in (decoded_of here.row)) m (state clocks marks values.new numbers.new) ≡ machine.bit_taken (state clocks marks values.old numbers.old) here.site.thread here.site.row (cond bit 1 0) (machine.role_in (decoded_of here.row)) }
{
    let site = here.site;
    let row = here.row;
    let thread = site.thread;
    let Some(op) = row else {
        return Err(Fault::Impossible);
    };
    let Op::Spurious { register } = op else {
        return Err(Fault::Impossible);
    };
    let value = u64::from(bit);
    values[REGISTER + register_at(thread, register)] = value;
    thread::complete(numbers, thread, vv::one_more(site.row));
    Ok(Moved::Done {
        slot: NO_SLOT,
        mask: 0,
        value,
    })
}
