// Document 01's scheduling rules, as loom's Execution::schedule has them, apart from the path: what is to be marked, the
// seed of the branch, and what the thread that it chooses takes up.
#![tactic(auto)]

ghost use Rattle.std.specs.Prelude.{◌≡◌, cond, map, ℕ, ◌<◌};
ghost use Rattle.rules.specs.Event as events;
ghost use Rattle.rules.specs.Explorer.{seed_of, seed_state};
ghost use Rattle.rules.specs.Machine as machine;
ghost use Rattle.rules.specs.Path.{active};
ghost use Rattle.rules.specs.State as rules;
ghost use Rattle.rules.specs.Vector.{nobody, thread};
ghost use Rattle.layout.specs.Tables.{state};
ghost use Rattle.event.specs.Moves.{move_of};
ghost use Rattle.scheduling.specs.Schedules.{point_of, OperationMeans, BestWithin};
ghost use Rattle.vv.specs.Whom.{whom};

use event::{Fault, Moved};
use layout::action::NO_OPERATION;
use layout::of_run::ACTIVE_THREAD;
use layout::of_thread::{OPERATES_ON, OPERATION, STATE, YIELDS};
use layout::{Clocks, MAX_CELLS, MAX_THREADS, Numbers, Operation, seed, wide16};
use thread::{RUNNABLE, YIELDED};
use track::access;

// A thread's pending operation. One on a cell that is none, which no row sets, counts as none.
pub fn pending_operation(numbers: &Numbers, thread: usize) -> Option<Operation>
    requires { thread < 5 }
    ensures { (clocks : rules.Clocks) (marks : rules.Marks) (values : rules.Values) → OperationMeans result (state clocks marks values numbers.now) thread }
{
    let action = numbers[OPERATION + thread];
    if action == NO_OPERATION {
        return None;
    }
    let cell = wide16(numbers[OPERATES_ON + thread]);
    if MAX_CELLS <= cell {
        return None;
    }
    Some(Operation { action, cell })
}

// Rule (a): the branch of the access that a thread's pending operation is concurrent with. That branch is to be backtracked
// from.
pub fn conflict(clocks: &Clocks, numbers: &Numbers, thread: usize) -> Option<u16>
    requires { thread < 5 }
    ensures { (marks : rules.Marks) (values : rules.Values) → point_of result ≡ machine.conflict (state clocks.now marks values numbers.now) thread }
{
    let Some(operation) = pending_operation(numbers, thread) else {
        return None;
    };
    if access::is_concurrent(clocks, numbers, thread, operation) {
        return Some(access::last_dependent_branch(numbers, operation));
    }
    None
}

// Rule (b): the active thread if it is runnable, so that a thread that can go on is not preempted unless a mark asks for it;
// else the runnable one with fewest yields, the lowest on a tie.
pub fn initial(numbers: &Numbers) -> Option<usize>
    ensures { whom result ≡ machine.initial numbers.now }
{
    let active = wide16(numbers[ACTIVE_THREAD]);
    if active < MAX_THREADS {
        if numbers[STATE + active] == RUNNABLE {
            return Some(active);
        }
    }
    fewest_yields(numbers)
}

fn fewest_yields(numbers: &Numbers) -> Option<usize>
    ensures { whom result ≡ machine.fewest_from numbers.now nobody 5 0 }
{
    let mut best = None;
    for t in 0..MAX_THREADS {
        if numbers[STATE + t] == RUNNABLE && yields_less(numbers, t, best) {
            best = Some(t);
        }
    }
    best
}

// Whether a thread has yielded less than the best so far; any thread, where there is none.
fn yields_less(numbers: &Numbers, thread: usize, best: Option<usize>) -> bool
    requires { (thread < 5) × BestWithin best }
    ensures { result ≡ machine.yields_less numbers.now thread (whom best) }
{
    let Some(best) = best else {
        return true;
    };
    numbers[YIELDS + thread] < numbers[YIELDS + best]
}

// Rule (c): the states that a new schedule branch starts from.
pub fn seed(numbers: &Numbers) -> [u8; MAX_THREADS]
    ensures { result ≡ seed_of (machine.initial numbers.now) (map (machine.standing numbers.now) machine.every_thread) }
{
    let first = initial(numbers);
    let mut states = [seed::DISABLED; MAX_THREADS];
    for t in 0..MAX_THREADS {
        states[t] = seed_of(numbers[STATE + t], first == Some(t));
    }
    states
}

fn seed_of(state: u16, first: bool) -> u8
    ensures { (numbers : rules.Numbers) (t : ℕ) → state ≡ rules.number numbers (rules.state t) → result ≡ cond first active (seed_state (machine.standing numbers t)) }
{
    if first {
        return seed::ACTIVE;
    }
    match state {
        YIELDED => seed::YIELD,
        RUNNABLE => seed::SKIP,
        _ => seed::DISABLED,
    }
}

// Rules (d) and (e), where a branch chooses a thread: it becomes active, its operation its cell's last access at this branch,
// and every other yielded thread is runnable again. A thread that cannot run is chosen by no branch of a run.
pub fn switch(
    clocks: &mut Clocks,
    numbers: &mut Numbers,
    chosen: usize,
    branch: u16,
) -> Result<Moved, Fault>
    ensures { (marks : rules.Marks) (values : rules.Values) (t k opcode : ℕ) (m : events.Matched) → move_of result t k opcode m (state clocks.new marks values numbers.new) ≡ machine.scheduled (state clocks.old marks values numbers.old) (thread chosen) branch }
{
    if !thread::can_run(numbers, chosen) {
        return Err(Fault::Impossible);
    }
    choose(clocks, numbers, chosen, branch);
    Ok(Moved::Moves)
}

fn choose(clocks: &mut Clocks, numbers: &mut Numbers, chosen: usize, branch: u16)
    requires { chosen < 5 }
    ensures { (marks : rules.Marks) (values : rules.Values) → state clocks.new marks values numbers.new ≡ machine.switched (state clocks.old marks values numbers.old) chosen branch }
{
    numbers[ACTIVE_THREAD] = chosen as u16;
    if let Some(operation) = pending_operation(numbers, chosen) {
        access::set_last_access(clocks, numbers, chosen, operation, branch);
    }
    thread::reactivate(numbers, chosen);
}

// Rule (d), where a branch chooses none: the execution has ended, or it is a deadlock. No branch of a run chooses none where a
// thread can run.
pub fn nobody(numbers: &Numbers) -> Result<Moved, Fault>
    ensures { (clocks : rules.Clocks) (marks : rules.Marks) (values : rules.Values) (t k opcode at : ℕ) (m : events.Matched) → move_of result t k opcode m (state clocks marks values numbers.now) ≡ machine.scheduled (state clocks marks values numbers.now) nobody at }
{
    if thread::all_ended(numbers) {
        return Ok(Moved::Ends);
    }
    if thread::some_can_run(numbers) {
        return Err(Fault::Impossible);
    }
    Err(Fault::Deadlock)
}
