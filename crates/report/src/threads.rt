// The threads at the end of an execution, as a report has them.
ghost use Rattle.std.specs.Prelude.{◌≡◌, map, ◌<◌};
ghost use Rattle.rules.specs.Explored as rules;
ghost use Rattle.rules.specs.State as State;
ghost use Rattle.rules.specs.Machine.{every_thread};
ghost use Rattle.layout.specs.Tables.{state};
ghost use Rattle.report.specs.Answers.{summary_of, summaries_of};

use crate::Summary;
use layout::of_thread::{ROWS, STATE, YIELDS};
use layout::{Clocks, MAX_THREADS, Numbers};

// A thread that is absent, and every thread where nothing was begun.
pub fn absent() -> Summary
    ensures { summary_of result ≡ rules.no_summary }
{
    Summary {
        state: thread::ABSENT,
        rows: 0,
        yields: 0,
        version: 0,
    }
}

// The summary of one thread.
pub fn summary(clocks: &Clocks, numbers: &Numbers, thread: usize) -> Summary
    requires { thread < 5 }
    ensures { (marks : State.Marks) (values : State.Values) → summary_of result ≡ rules.summary (state clocks.now marks values numbers.now) thread }
{
    let state = numbers[STATE + thread];
    if state == thread::ABSENT {
        return absent();
    }
    Summary {
        state,
        rows: numbers[ROWS + thread],
        yields: numbers[YIELDS + thread],
        version: thread::version(clocks, thread),
    }
}

pub fn summaries(clocks: &Clocks, numbers: &Numbers) -> [Summary; MAX_THREADS]
    ensures { (marks : State.Marks) (values : State.Values) → summaries_of result ≡ map (rules.summary (state clocks.now marks values numbers.now)) every_thread }
{
    let a = summary(clocks, numbers, 0);
    let b = summary(clocks, numbers, 1);
    let c = summary(clocks, numbers, 2);
    let d = summary(clocks, numbers, 3);
    let e = summary(clocks, numbers, 4);
    [a, b, c, d, e]
}
