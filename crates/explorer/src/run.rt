// A run: one execution after another, until nothing is open, the budget is spent or a fault stops it.
ghost use Rattle.std.specs.Prelude.{◌≡◌, ◌+◌, ◌*◌, ◌^◌, ◌<◌};
ghost use Rattle.settings.specs.Given.{settings_of};
ghost use Rattle.iteration.specs.Executes.{RunReady, TermsGiven};
ghost use Rattle.explorer.specs.Runs.{Further, Stepped, RunStopped, Empty, Ran};

use ending::{finish, judge_end};
use iteration::{Terms, execute};
use layout::{
    CLOCKS, Clocks, MAX_ATOMIC_HISTORY, MAX_CELLS, MAX_THREADS, NUMBERS, Numbers, RECORD, UNSEEN,
    VALUES,
};
use report::{Answer, Report};
use settings::Settings;
use walk::{Cursor, Limits, Ticked};

// What a run has come to after some executions: the cursor of the last, the entries of the longest trace, how many were begun.
#[derive(Clone, Copy)]
pub struct Progress {
    pub cursor: Cursor,
    pub longest: usize,
    pub begun: u64,
}

// Runs an accepted table with settings in range and buffers of the right lengths.
pub fn run(
    table: &[u8],
    condition: &[u8],
    path: &mut [u8],
    trace: &mut [u8],
    settings: Settings,
) -> Report
    requires { RunReady table.now (settings_of settings) path.old trace.old }
    ensures { Ran table.now condition.now (settings_of settings) path.old trace.old result path.new trace.new }
{
    trace::clear_all(path);
    trace::clear_all(trace);
    executions(table, condition, path, trace, settings)
}

// One execution after another, over buffers that hold nothing.
fn executions(
    table: &[u8],
    condition: &[u8],
    path: &mut [u8],
    trace: &mut [u8],
    settings: Settings,
) -> Report
    requires { RunReady table.now (settings_of settings) path.old trace.old × Empty path.old × Empty trace.old }
    ensures { Ran table.now condition.now (settings_of settings) path.old trace.old result path.new trace.new }
{
    let shape = table::shape(table);
    let terms = terms_of(settings);
    let mut clocks = [[0u16; MAX_THREADS]; CLOCKS];
    let mut marks = [[[UNSEEN; MAX_THREADS]; MAX_ATOMIC_HISTORY]; MAX_CELLS];
    let mut values = [0u64; VALUES];
    let mut numbers = [0u16; NUMBERS];
    let mut progress = nothing();
    // Each execution says whether there is another, so there is no range for a `for`.
    loop {
        let cursor = progress.cursor;
        let over = execute(
            table,
            &shape,
            &mut clocks,
            &mut marks,
            &mut values,
            &mut numbers,
            path,
            trace,
            terms,
            cursor,
        );
        progress = further(progress, over);
        let last = progress.begun == settings.executions;
        if let Some(answer) = judge_end(table, condition, &values, path, over, last) {
            return stop(&clocks, &numbers, path, trace, answer, progress);
        }
        progress = stepped(path, progress);
    }
}

// What an execution is given of the settings.
fn terms_of(settings: Settings) -> Terms
    ensures { settings.operations < 65536 → TermsGiven (settings_of settings) result }
{
    let bound = settings.bound;
    let limits = Limits {
        operations: (settings.operations % 65536) as u16,
        bound,
    };
    Terms {
        limits,
        exploring: settings.exploring,
    }
}

// Nothing known, nothing opened, nothing begun.
fn nothing() -> Progress
    ensures { (result.cursor.len ≡ 0) × (result.cursor.opened ≡ 0) × (result.longest ≡ 0) × (result.begun ≡ 0) }
{
    let cursor = Cursor {
        len: 0,
        pos: 0,
        opened: 0,
        entries: 0,
    };
    Progress {
        cursor,
        longest: 0,
        begun: 0,
    }
}

// One execution more is over.
fn further(progress: Progress, over: Ticked) -> Progress
    requires { progress.begun + 1 < 2 ^ 64 }
    ensures { Further progress over result }
{
    let cursor = over.cursor;
    let longest = progress.longest.max(cursor.entries);
    Progress {
        cursor,
        longest,
        begun: progress.begun + 1,
    }
}

// The report of a run that stops here. What longer traces left past the last one's entries goes.
fn stop(
    clocks: &Clocks,
    numbers: &Numbers,
    path: &[u8],
    trace: &mut [u8],
    answer: Answer,
    progress: Progress,
) -> Report
    requires { (16 * progress.cursor.entries < 2 ^ 64) × (16 * progress.longest < 2 ^ 64) }
    ensures { RunStopped clocks.now numbers.now path.now trace.old trace.new answer progress result }
{
    let cursor = progress.cursor;
    trace::clear(trace, RECORD * cursor.entries, RECORD * progress.longest);
    finish(clocks, numbers, path, answer, progress.begun, cursor)
}

// The next path.
fn stepped(path: &mut [u8], progress: Progress) -> Progress
    ensures { Stepped path.old path.new progress result }
{
    let mut cursor = progress.cursor;
    cursor.len = path::step(path, cursor.len);
    Progress {
        cursor,
        longest: progress.longest,
        begun: progress.begun,
    }
}
