// What a run answered, as text on standard output: the verdict, the counts, the threads' summaries and the last execution. What is said
// comes from crates that put it on a page; this one writes.
#![tactic(auto)]

use page::{PAGE_BYTES, Page};
use report::{Counts, Report, answers};
use settings::Settings;
use std::io;

mod last;
mod out;
mod threads;

// Prints all of a report; where nothing began, only what is wrong. The execution of a run that a limit ended is shortened,
// unless it is wanted whole.
pub fn print_report(
    rt: &impl Print,
    table: &[u8],
    condition: &[u8],
    trace: &[u8],
    settings: Settings,
    whole: bool,
    report: Report,
) -> io::Result<()> {
    let mut page = [0u8; PAGE_BYTES];
    out::put(rt, &mut page, |page| {
        verdict::put(page, 0, table, condition, trace, settings, report)
    })?;
    if 0 < report.begun {
        let counts = Counts {
            begun: report.begun,
            opened: report.opened,
            still_open: report.still_open,
        };
        put_counts(rt, &mut page, counts, report.rows)?;
        threads::summaries(rt, &mut page, report.threads)?;
        ran(rt, &mut page, table, trace, whole, report)?;
        out::put(rt, &mut page, |page| summary::put_legend(page, 0))?;
    }
    Ok(())
}

// Writes the last execution, and where it stopped.
fn ran(
    rt: &impl Print,
    page: &mut Page,
    table: &[u8],
    trace: &[u8],
    whole: bool,
    report: Report,
) -> io::Result<()> {
    let answer = report.answer;
    let number = report::number(answer);
    let is_limit = limit::is_limit(number);
    last::execution(rt, page, table, trace, whole || !is_limit)?;
    let site = report::at_fault(answer);
    out::put(
        rt,
        page,
        |page| stop::put_place(page, 0, table, site, is_limit),
    )?;
    if number == answers::DEADLOCK {
        threads::waiting(rt, page, table, trace, report.threads)?;
    }
    Ok(())
}

// Prints that a text is refused at a line and column, with that line of it. The name of its file comes first, where there is one.
pub fn print_refusal(
    rt: &impl Print,
    name: &[u8],
    text: &[u8],
    line: usize,
    column: usize,
) -> io::Result<()> {
    let mut page = [0u8; PAGE_BYTES];
    out::put(rt, &mut page, |page| {
        excerpt::put(page, 0, name, text, line, column)
    })
}

// Writes the four counts and the ledger.
fn put_counts(rt: &impl Print, page: &mut Page, counts: Counts, rows: u64) -> io::Result<()> {
    out::line(rt, b"")?;
    count(rt, page, b"executions begun", counts.begun)?;
    count(rt, page, b"choices opened", counts.opened)?;
    count(rt, page, b"choices open", counts.still_open)?;
    count(rt, page, b"rows begun", rows)?;
    out::put(rt, page, |page| summary::put_ledger(page, 0, counts))
}

// Writes one count.
fn count(rt: &impl Print, page: &mut Page, name: &[u8], n: u64) -> io::Result<()> {
    out::put(rt, page, |page| summary::put_count(page, 0, name, n))
}
