// What an execution that is over says of the run: whether it goes on, or what it answers; and its report.
#![tactic(auto)]

ghost use Rattle.std.specs.Prelude.{◌≡◌};
ghost use Rattle.rules.specs.Table.{threads_of};
ghost use Rattle.ending.specs.Ends.{met_by, Judges, Finished};

use event::Fault;
use layout::{Clocks, Numbers, Values, wide8};
use report::{Answer, Counts, Report};
use table::limits::THREAD_COUNT;
use walk::{Cursor, Outcome, Ticked};

// What the run answers, if it stops here; None where it goes on. A fault is the answer. An execution that ended answers 18 if the final
// condition is false of the registers, 0 if nothing is open, and 1 if it was the last allowed. One that would still go on is not over: that is the impossible outcome, as in the definition.
pub fn judge_end(
    table: &[u8],
    condition: &[u8],
    values: &Values,
    path: &[u8],
    over: Ticked,
    last: bool,
) -> Option<Answer>
    ensures { Judges path.now (met_by table.now condition.now values.now) over.outcome over.cursor.len last result }
{
    let outcome = over.outcome;
    match outcome {
        Outcome::Goes => {
            return Some(Answer::Stopped {
                fault: Fault::Impossible,
                site: walk::no_site(),
            });
        }
        Outcome::Over => {}
        Outcome::Faulted { fault, site } => {
            return Some(Answer::Stopped { fault, site });
        }
    }
    if !condition::holds(condition, values, threads_of(table)) {
        return Some(Answer::Unmet);
    }
    let cursor = over.cursor;
    if !path::any_open(path, cursor.len) {
        return Some(Answer::Exhausted);
    }
    if last {
        return Some(Answer::Spent);
    }
    None
}

// How many threads the table has, by its first byte.
pub fn threads_of(table: &[u8]) -> usize
    ensures { result ≡ threads_of table.now }
{
    if table.len() == 0 {
        return 0;
    }
    wide8(table[THREAD_COUNT])
}

// The report of a run that stops here.
pub fn finish(
    clocks: &Clocks,
    numbers: &Numbers,
    path: &[u8],
    answer: Answer,
    begun: u64,
    cursor: Cursor,
) -> Report
    ensures { Finished clocks.now numbers.now path.now answer begun cursor result }
{
    let counts = Counts {
        begun,
        opened: cursor.opened,
        still_open: path::open(path, cursor.len),
    };
    report::finished(clocks, numbers, answer, counts)
}
