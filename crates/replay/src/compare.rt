// One case: asked again, and its answer held to the list's.
use crate::case::{Case, MOST_TABLE, Numbers};
use crate::fields::NoCase;
use crate::{buffers, case};
use numbers::{BEFORE_SUMMARIES, SUMMARY, of_report, places};
use report::Report;
use std::fmt;

// How a case comes out: `Unread` if it asks for longer buffers than this program has.
#[derive(Clone, Copy)]
pub enum Agreement {
    Agrees,
    Differs(Difference),
    Unread,
}

// What differs first: a number of the report, or a byte of the path or of the trace.
#[derive(Clone, Copy)]
pub struct Difference {
    pub place: Place,
    pub given: u64,
    pub listed: u64,
}

#[derive(Clone, Copy)]
pub enum Place {
    Number(usize),
    Path(usize),
    Trace(usize),
}

impl fmt::Display for Difference {
    fn fmt<W: fmt::Write>(&self, f: &mut fmt::Formatter<W>) -> fmt::Result {
        let Difference {
            place,
            given,
            listed,
        } = *self;
        write!(f, "{place} is {given}, the list says {listed}")
    }
}

impl fmt::Display for Place {
    fn fmt<W: fmt::Write>(&self, f: &mut fmt::Formatter<W>) -> fmt::Result {
        match *self {
            Place::Number(number) => match number {
                places::ANSWER => write!(f, "the answer"),
                places::BEGUN => write!(f, "executions begun"),
                places::OPENED => write!(f, "choices opened"),
                places::STILL_OPEN => write!(f, "choices open"),
                places::ROWS => write!(f, "rows begun"),
                places::THREAD => write!(f, "the thread at fault"),
                places::ROW => write!(f, "the row at fault"),
                places::KIND => write!(f, "the race kind"),
                places::OTHER => write!(f, "the other thread"),
                _ => write_summary(f, number.saturating_sub(BEFORE_SUMMARIES)),
            },
            Place::Path(at) => write!(f, "byte {at} of the path"),
            Place::Trace(at) => write!(f, "byte {at} of the trace"),
        }
    }
}

// The name of a number of a thread's summary, counted from the first thread's first.
fn write_summary<W: fmt::Write>(f: &mut fmt::Formatter<W>, number: usize) -> fmt::Result {
    let thread = number / SUMMARY;
    let name = match number % SUMMARY {
        places::STATE => "state",
        places::THREAD_ROWS => "rows begun",
        places::YIELDS => "yields",
        _ => "own version",
    };
    write!(f, "thread {thread}'s {name}")
}

// Asks the case of a line again, in as much of the two buffers as it asks for.
pub fn replay_line(line: &[u8], path: &mut [u8], trace: &mut [u8]) -> Result<Agreement, NoCase> {
    let case = Case::read(line)?;
    let Some(path) = path.get_mut(..case.path) else {
        return Ok(Agreement::Unread);
    };
    let Some(trace) = trace.get_mut(..case.trace) else {
        return Ok(Agreement::Unread);
    };
    let mut room = [0u8; MOST_TABLE];
    let table = case::bytes(case.table, &mut room).ok_or(NoCase::Field(case::TABLE))?;
    let mut room = [0u8; MOST_TABLE];
    let condition = case::bytes(case.condition, &mut room).ok_or(NoCase::Field(case::CONDITION))?;
    buffers::fill(path);
    buffers::fill(trace);
    let given = of_report(explored(&case, table, condition, path, trace));
    match judge(&case, &given, path, trace) {
        Ok(()) => Ok(Agreement::Agrees),
        Err(difference) => Ok(Agreement::Differs(difference)),
    }
}

// What the explorer answers: by the first entry, or by the second where the case has a thread list: that one judges its length.
fn explored(
    case: &Case<'_>,
    table: &[u8],
    condition: &[u8],
    path: &mut [u8],
    trace: &mut [u8],
) -> Report {
    let settings = case.settings;
    match case.list {
        None => explorer::explore(table, condition, path, trace, settings),
        Some(listed) => into::explore_counted(table, condition, path, trace, settings, listed),
    }
}

// Holds what a run gave to what the list says.
fn judge(case: &Case<'_>, given: &Numbers, path: &[u8], trace: &[u8]) -> Result<(), Difference> {
    for (i, (given, listed)) in given.iter().zip(&case.answer).enumerate() {
        if given != listed {
            return Err(Difference {
                place: Place::Number(i),
                given: *given,
                listed: *listed,
            });
        }
    }
    buffers::compare(path, case.path_left, |at| Place::Path(at))?;
    buffers::compare(trace, case.trace_left, |at| Place::Trace(at))
}
