// Whether an execution ends in a loop.
#![tactic(auto)]

ghost use Rattle.std.specs.Prelude.{◌≡◌};
ghost use Rattle.spin.specs.Loops.{same_row, repeats_in, period_of, is_yield, yields_in};

use decode::opcodes::YIELD;
use table::limits::MAX_ROWS;

// The longest loop that is looked for.
const LONGEST: usize = MAX_ROWS;

// Over how many steps the last of the first `n` repeat those before them, three times at least; none where they do not, or where a
// loop would have more steps than a thread may have rows.
pub fn period(trace: &[u8], n: usize) -> Option<usize>
    ensures { result ≡ period_of trace.now n }
{
    for p in 1..=LONGEST {
        if repeats(trace, n, p) {
            return Some(p);
        }
    }
    None
}

// Whether the last steps are three times the same `p` rows.
fn repeats(trace: &[u8], n: usize, p: usize) -> bool
    ensures { result ≡ repeats_in trace.now n p }
{
    if n / 3 < p {
        return false;
    }
    for i in n - 2 * p..n {
        if !same_row(trace, i, i - p) {
            return false;
        }
    }
    true
}

// Whether one of the last `p` steps is a yield.
pub fn yields(trace: &[u8], n: usize, p: usize) -> bool
    ensures { result ≡ yields_in trace.now n p }
{
    for i in n.saturating_sub(p)..n {
        if is_yield(trace, i) {
            return true;
        }
    }
    false
}

fn is_yield(trace: &[u8], i: usize) -> bool
    ensures { result ≡ is_yield trace.now i }
{
    steps::opcode(trace, i) == YIELD
}

// Whether two steps are of the same thread and row.
fn same_row(trace: &[u8], i: usize, j: usize) -> bool
    ensures { result ≡ same_row trace.now i j }
{
    (steps::thread(trace, i) == steps::thread(trace, j))
        & (steps::row(trace, i) == steps::row(trace, j))
}
