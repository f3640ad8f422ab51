// One execution of a program, a tick at a time, after loom's rt/execution.rs. The machine never sees the path: where a choice
// is to be made it asks, and goes on with the answer. `next` and `answered` are the definition's.
#![tactic(auto)]

ghost use Rattle.std.specs.Prelude.{◌≡◌, ℕ, ◌<◌, ◌≤◌, ◌+◌, get_or, Ok};
ghost use Rattle.rules.specs.Event.{Matched};
ghost use Rattle.rules.specs.Machine as machine;
ghost use Rattle.rules.specs.State as rules;
ghost use Rattle.rules.specs.Table.{cells_of, opcode_of, opcode_in};
ghost use Rattle.layout.specs.Tables.{state};
ghost use Rattle.event.specs.Moves.{HereWithin, move_of, matched_for};
ghost use Rattle.decode.specs.Ops.{op_of, decoded_of, InRange};
ghost use Rattle.execution.specs.Alone.{Storing, Unsync, Alone};
ghost use Rattle.execution.specs.Answers.{Answers, ChoiceWithin};
ghost use Rattle.execution.specs.Next.{next_with};
ghost use Rattle.execution.specs.Stores.{Stores};

use decode::Op;
use event::{Fault, Here, Moved, Picked, Question, Site};
use layout::of_thread::REGISTER;
use layout::{Access, Clocks, Marks, Numbers, Values, register_at, wide16};
use table::{CELLS, COUNTS, Shape};

// What a store stores: an operand, or what a register holds.
#[derive(Clone, Copy)]
pub struct Stored {
    pub access: Access,
    pub value: u64,
}

// One tick of the active thread at its row: past its last row it ends; else it begins the row and, if no scheduling comes first
// or the row has begun already, acts.
pub fn next(
    shape: &Shape,
    clocks: &mut Clocks,
    marks: &mut Marks,
    values: &mut Values,
    numbers: &mut Numbers,
    limit: u16,
    here: Here,
) -> Result<Moved, Fault>
    requires { HereWithin here × (get_or shape.now 1 0 ≤ 4) }
    ensures { (p : machine.Program) → p.operations ≡ limit → cells_of p.table ≡ get_or shape.now 1 0 → move_of result here.site.thread here.site.row (opcode_in (decoded_of here.row)) (matched_for (state clocks.new marks.new values.new numbers.new) here.site.thread (decoded_of here.row)) (state clocks.new marks.new values.new numbers.new) ≡ next_with p (state clocks.old marks.old values.old numbers.old) here.site.thread here.site.row (get_or shape.now (2 + here.site.thread) 0) (decoded_of here.row) }
{
    let site = here.site;
    let row = here.row;
    let thread = site.thread;
    let to_begin = thread::is_to_begin(numbers, thread);
    if to_begin {
        if shape[COUNTS + thread] <= site.row {
            thread::end(numbers, thread);
            return Ok(Moved::Asks {
                question: Question::Thread,
                yielded: false,
            });
        }
    }
    let Some(op) = row else {
        return Err(Fault::Impossible);
    };
    if to_begin {
        let event = rows::begin(numbers, limit, thread, op)?;
        let Moved::Moves = event else {
            return Ok(event);
        };
    }
    let cells = wide16(shape[CELLS]);
    act(clocks, marks, values, numbers, site, op, cells)
}

// What a row does once it has begun, and its thread was chosen if it called the scheduling.
pub fn act(
    clocks: &mut Clocks,
    marks: &mut Marks,
    values: &mut Values,
    numbers: &mut Numbers,
    site: Site,
    op: Op,
    cells: usize,
) -> Result<Moved, Fault>
    requires { (site.thread < 5) × (cells ≤ 4) × InRange (op_of op) }
    ensures { (p : machine.Program) → cells_of p.table ≡ cells → move_of result site.thread site.row (opcode_of (op_of op)) (matched_for (state clocks.new marks.new values.new numbers.new) site.thread (decoded_of (Some op))) (state clocks.new marks.new values.new numbers.new) ≡ machine.acts p (state clocks.old marks.old values.old numbers.old) site.thread site.row (op_of op) }
{
    match op {
        Op::Load { .. } => Ok(ask_slot(clocks, site.thread)),
        Op::Rmw { .. } => Ok(ask_slot(clocks, site.thread)),
        Op::Fence { order } => Ok(rows::fence_row(clocks, marks, numbers, site, order, cells)),
        Op::Yield => Ok(rows::yield_row(clocks, numbers, site)),
        Op::Join { thread: target } => Ok(rows::join_row(clocks, numbers, site, target)),
        _ => act_store(clocks, marks, values, numbers, site, op),
    }
}

// The rows that store, and those without synchronisation. There is one call for both that store: with two the compiler keeps
// `store_row` a function of its own, and every row's event goes through memory for it.
fn act_store(
    clocks: &mut Clocks,
    marks: &mut Marks,
    values: &mut Values,
    numbers: &mut Numbers,
    site: Site,
    op: Op,
) -> Result<Moved, Fault>
    requires { (site.thread < 5) × InRange (op_of op) × Storing (op_of op) }
    ensures { (p : machine.Program) (m : Matched) → move_of result site.thread site.row (opcode_of (op_of op)) m (state clocks.new marks.new values.new numbers.new) ≡ machine.acts p (state clocks.old marks.old values.old numbers.old) site.thread site.row (op_of op) }
{
    if let Some(Stored { access, value }) = to_store(values, site.thread, op) {
        return accesses::store_row(clocks, marks, values, numbers, access, site.row, value);
    }
    act_unsync(clocks, values, numbers, site, op)
}

// What a row stores; one that is no store stores nothing.
fn to_store(values: &Values, thread: usize, op: Op) -> Option<Stored>
    requires { (thread < 5) × InRange (op_of op) }
    ensures { Stores result values.now thread (machine.role_of (op_of op)) }
{
    match op {
        Op::Store { cell, order, value } => {
            let access = Access {
                thread,
                cell,
                order,
            };
            Some(Stored { access, value })
        }
        Op::StoreRegister {
            cell,
            order,
            register,
        } => {
            let access = Access {
                thread,
                cell,
                order,
            };
            let value = register_of(values, thread, register);
            Some(Stored { access, value })
        }
        _ => None,
    }
}

// The rows that access a cell, plain or not, without synchronisation, and those that concern their own thread alone.
fn act_unsync(
    clocks: &mut Clocks,
    values: &mut Values,
    numbers: &mut Numbers,
    site: Site,
    op: Op,
) -> Result<Moved, Fault>
    requires { (site.thread < 5) × InRange (op_of op) × Unsync (op_of op) }
    ensures { (p : machine.Program) (marks : rules.Marks) (m : Matched) → move_of result site.thread site.row (opcode_of (op_of op)) m (state clocks.new marks values.new numbers.new) ≡ machine.acts p (state clocks.old marks values.old numbers.old) site.thread site.row (op_of op) }
{
    match op {
        Op::UnsyncLoad { cell, register } => {
            accesses::unsync_load_row(clocks, values, numbers, site, cell, register)
        }
        Op::WithMut {
            cell,
            change,
            register,
        } => accesses::with_mut_row(clocks, values, numbers, site, cell, change, register),
        Op::PlainRead { plain, register } => {
            accesses::plain_read_row(clocks, values, numbers, site, plain, register)
        }
        Op::PlainWrite { plain, value } => {
            accesses::plain_write_row(clocks, values, numbers, site, plain, value)
        }
        _ => act_alone(values, numbers, site, op),
    }
}

// The rows that concern their own thread alone.
fn act_alone(values: &Values, numbers: &mut Numbers, site: Site, op: Op) -> Result<Moved, Fault>
    requires { (site.thread < 5) × InRange (op_of op) × Alone (op_of op) }
    ensures { (p : machine.Program) (clocks : rules.Clocks) (marks : rules.Marks) (m : Matched) → move_of result site.thread site.row (opcode_of (op_of op)) m (state clocks marks values.now numbers.new) ≡ machine.acts p (state clocks marks values.now numbers.old) site.thread site.row (op_of op) }
{
    let thread = site.thread;
    match op {
        Op::Jump { target } => Ok(rows::jump_row(numbers, site, true, target)),
        Op::JumpIf {
            register,
            a,
            target,
        } => {
            let equal = register_of(values, thread, register) == a;
            Ok(rows::jump_row(numbers, site, equal, target))
        }
        Op::JumpUnless {
            register,
            a,
            target,
        } => {
            let equal = register_of(values, thread, register) == a;
            Ok(rows::jump_row(numbers, site, !equal, target))
        }
        Op::Check { register, a } => {
            let equal = register_of(values, thread, register) == a;
            rows::check_row(numbers, site, equal)
        }
        Op::Critical => rows::explore_row(numbers, site, false),
        Op::ExploreState => rows::explore_row(numbers, site, true),
        Op::SkipBranch => Ok(rows::skip_branch(numbers, site)),
        _ => Ok(Moved::Asks {
            question: Question::Bit,
            yielded: false,
        }),
    }
}

// What a thread's register holds.
fn register_of(values: &Values, thread: usize, register: usize) -> u64
    requires { (thread < 5) × (register < 4) }
    ensures { result ≡ rules.value values.now (rules.of_register (rules.register_at thread register)) }
{
    values[REGISTER + register_at(thread, register)]
}

// A load or a read-modify-write raises its version, and asks for its store: it is offered what the state with the version
// raised offers.
fn ask_slot(clocks: &mut Clocks, thread: usize) -> Moved
    requires { thread < 5 }
    ensures { (marks : rules.Marks) (values : rules.Values) (numbers : rules.Numbers) (t k opcode : ℕ) (offered : rules.State → Matched) → move_of (Ok result) t k opcode (offered (state clocks.new marks values numbers)) (state clocks.new marks values numbers) ≡ machine.asks_slot (machine.version_raised (state clocks.old marks values numbers) thread) (offered (machine.version_raised (state clocks.old marks values numbers) thread)) }
{
    thread::raise(clocks, thread);
    Moved::Asks {
        question: Question::Slot,
        yielded: false,
    }
}

// Goes on with an answer, at the row that asked.
pub fn answered(
    clocks: &mut Clocks,
    marks: &mut Marks,
    values: &mut Values,
    numbers: &mut Numbers,
    here: Here,
    choice: Picked,
) -> Result<Moved, Fault>
    requires { HereWithin here × ChoiceWithin choice }
    ensures { (m : Matched) → Answers choice (decoded_of here.row) here.site.thread here.site.row (state clocks.old marks.old values.old numbers.old) (move_of result here.site.thread here.site.row (opcode_in (decoded_of here.row)) m (state clocks.new marks.new values.new numbers.new)) }
{
    match choice {
        Picked::Thread { chosen, branch } => scheduling::switch(clocks, numbers, chosen, branch),
        Picked::Nobody => scheduling::nobody(numbers),
        Picked::Slot { slot, mask } => {
            accesses::read_from(clocks, marks, values, numbers, here, slot, mask)
        }
        Picked::Bit(bit) => rows::take_bit(values, numbers, here, bit),
    }
}
