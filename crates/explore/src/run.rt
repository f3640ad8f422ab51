// A run: the buffers, the exploration and what is printed of it.
ghost use Rattle.std.specs.Prelude.{◌≤◌};

use report::{Answer, Report};
use settings::{PATH_BYTES, RECORD, Settings, TRACE_BYTES};
use std::io;

// Explores and prints, with as much of the largest buffers as the settings ask for.
pub fn run(
    rt: &(impl Print + Eprint),
    table: &[u8],
    condition: &[u8],
    settings: Settings,
    whole: bool,
) -> io::Result<()> {
    let mut path = [0u8; PATH_BYTES];
    let mut trace = [0u8; TRACE_BYTES];
    let path_size = bytes(settings.branches, PATH_BYTES);
    let trace_size = bytes(settings.operations, TRACE_BYTES);
    run_in(
        rt,
        table,
        condition,
        &mut path[0..path_size],
        &mut trace[0..trace_size],
        settings,
        whole,
    )
}

// The bytes of this many records, or all that there are if those are fewer.
fn bytes(records: u64, all: usize) -> usize
    ensures { result ≤ all }
{
    records.saturating_mul(RECORD as u64).min(all as u64) as usize
}

// Explores in buffers of the right lengths, and prints.
fn run_in(
    rt: &(impl Print + Eprint),
    table: &[u8],
    condition: &[u8],
    path: &mut [u8],
    trace: &mut [u8],
    settings: Settings,
    whole: bool,
) -> io::Result<()> {
    let report = explore(rt, table, condition, path, trace, settings)?;
    tell::print_report(rt, table, condition, trace, settings, whole, report)
}

// The budgets of executions, each twice the one before: a run that needs no more than the first says nothing before its answer. All are
// below MAX_EXECUTIONS.
const BUDGETS: [u64; 3] = [8192, 16384, 32768];

// Explores. The library gives no word before its answer, so a long run is made with budgets that double: one that is spent
// is named on standard error.
fn explore(
    rt: &impl Eprint,
    table: &[u8],
    condition: &[u8],
    path: &mut [u8],
    trace: &mut [u8],
    settings: Settings,
) -> io::Result<Report> {
    for executions in BUDGETS {
        if settings.executions <= executions {
            break;
        }
        let budget = Settings {
            executions,
            ..settings
        };
        let report = explorer::explore(table, condition, path, trace, budget);
        if !matches!(report.answer, Answer::Spent) {
            return Ok(report);
        }
        eprintln!(rt; "{executions} executions, and choices are open")?;
    }
    Ok(explorer::explore(table, condition, path, trace, settings))
}
