// What a run answers.
#![tactic(auto)]

ghost use Rattle.std.specs.Prelude.{◌≡◌, ℕ, leb};
ghost use Rattle.rules.specs.Event.{fault_number, race_kind, other_thread};
ghost use Rattle.rules.specs.Explored as rules;
ghost use Rattle.rules.specs.State as State;
ghost use Rattle.layout.specs.Tables.{state};
ghost use Rattle.event.specs.Moves.{fault_of};
ghost use Rattle.report.specs.Answers.{answer_number, race_kind_of, other_of, thread_at_fault, row_at_fault, report_of, refusal, ran_report};

pub mod answers;
pub mod threads;

use event::{Fault, NO_PLACE, Site};
use layout::of_run::ROWS_BEGUN;
use layout::{Clocks, MAX_THREADS, Numbers, wide16};

// Document 01's table of answers: 0 and 1, the refusals 2 to 5, the faults from 10 on, with where they were met, and 18, a final
// condition that is false.
#[derive(Clone, Copy)]
pub enum Answer {
    Exhausted,
    Spent,
    BadSettings,
    BadPath,
    BadTrace,
    BadTable { thread: usize, row: usize },
    Stopped { fault: Fault, site: Site },
    Unmet,
}

// Where a run was stopped, or a table is refused: a thread and its row, as a report has them, both 255 where there is none. The C
// interface has these numbers.
#[derive(Clone, Copy)]
pub struct AtFault {
    pub thread: u64,
    pub row: u64,
}

// One thread at the end of the last execution; all zero if it is absent.
#[derive(Clone, Copy)]
pub struct Summary {
    pub state: u16,
    pub rows: u16,
    pub yields: u16,
    pub version: u16,
}

// The answer says thread and row at fault too, and the race (`at_fault`, `race_kind`, `other_thread`).
#[derive(Clone, Copy)]
pub struct Report {
    pub answer: Answer,
    // Executions begun, choices opened in the whole history, choices open in the path left, rows begun.
    pub begun: u64,
    pub opened: u64,
    pub still_open: u64,
    pub rows: u64,
    pub threads: [Summary; MAX_THREADS],
}

// What is counted over the whole history, and in the path left.
#[derive(Clone, Copy)]
pub struct Counts {
    pub begun: u64,
    pub opened: u64,
    pub still_open: u64,
}

// A refusal begins nothing: all counts and summaries are zero.
pub fn refused(answer: Answer) -> Report
    ensures { report_of result ≡ refusal answer }
{
    Report {
        answer,
        begun: 0,
        opened: 0,
        still_open: 0,
        rows: 0,
        threads: [threads::absent(); MAX_THREADS],
    }
}

// The report of a run that stops here.
pub fn finished(clocks: &Clocks, numbers: &Numbers, answer: Answer, counts: Counts) -> Report
    ensures { (marks : State.Marks) (values : State.Values) → report_of result ≡ ran_report answer counts.begun counts.opened counts.still_open (state clocks.now marks values numbers.now) }
{
    let threads = threads::summaries(clocks, numbers);
    let rows = wide16(numbers[ROWS_BEGUN]);
    Report {
        answer,
        begun: counts.begun,
        opened: counts.opened,
        still_open: counts.still_open,
        rows: rows as u64,
        threads,
    }
}

// The answer's number.
pub fn number(answer: Answer) -> u64
    ensures { result ≡ answer_number answer }
{
    match answer {
        Answer::Exhausted => answers::EXHAUSTED,
        Answer::Spent => answers::SPENT,
        Answer::BadSettings => answers::BAD_SETTINGS,
        Answer::BadPath => answers::BAD_PATH,
        Answer::BadTrace => answers::BAD_TRACE,
        Answer::BadTable { .. } => answers::BAD_TABLE,
        Answer::Stopped { fault, .. } => fault_number(fault),
        Answer::Unmet => answers::UNMET,
    }
}

// A fault's number. No run gives the last, which is kept for a path that does not fit the program.
pub fn fault_number(fault: Fault) -> u64
    ensures { result ≡ fault_number (fault_of fault) }
{
    match fault {
        Fault::Deadlock => answers::DEADLOCK,
        Fault::Full => answers::FULL,
        Fault::Rows => answers::ROWS,
        Fault::EqualOrders => answers::EQUAL_ORDERS,
        Fault::Race { .. } => answers::RACE,
        Fault::Check => answers::CHECK,
        Fault::Flags => answers::FLAGS,
        Fault::Preemptions => answers::PREEMPTIONS,
        Fault::Impossible => answers::IMPOSSIBLE,
    }
}

// Whether the answer of this number is a refusal: nothing was run.
pub fn is_refusal(number: u64) -> bool
    ensures { result ≡ rules.is_refusal number }
{
    (answers::BAD_SETTINGS <= number) & (number <= answers::BAD_TABLE)
}

// The race kind, or 0: a number of document 01's report, which the C interface has.
pub fn race_kind(answer: Answer) -> u8
    ensures { result ≡ race_kind_of answer }
{
    let Answer::Stopped { fault, .. } = answer else {
        return 0;
    };
    let Fault::Race { kind, .. } = fault else {
        return 0;
    };
    kind
}

// The race's other thread, or 255, as in that report.
pub fn other_thread(answer: Answer) -> u64
    ensures { result ≡ other_of answer }
{
    let Answer::Stopped { fault, .. } = answer else {
        return NO_PLACE;
    };
    let Fault::Race { other, .. } = fault else {
        return NO_PLACE;
    };
    other as u64
}

// The thread and row at fault, or those of the first bad row; both 255 where there is none.
pub fn at_fault(answer: Answer) -> AtFault
    ensures { (result.thread ≡ thread_at_fault answer) × (result.row ≡ row_at_fault answer) }
{
    match answer {
        Answer::BadTable { thread, row } => AtFault {
            thread: thread as u64,
            row: row as u64,
        },
        Answer::Stopped { fault, site } => {
            if names_place(fault) {
                AtFault {
                    thread: site.thread as u64,
                    row: site.row as u64,
                }
            } else {
                nowhere()
            }
        }
        _ => nowhere(),
    }
}

// No thread and no row.
fn nowhere() -> AtFault
    ensures { (result.thread ≡ 255) × (result.row ≡ 255) }
{
    AtFault {
        thread: NO_PLACE,
        row: NO_PLACE,
    }
}

// From 11 on a fault names a thread and its row; a deadlock is nobody's.
fn names_place(fault: Fault) -> bool
    ensures { result ≡ leb 11 (fault_number (fault_of fault)) }
{
    answers::FULL <= fault_number(fault)
}
