// The threads at the end of the last execution.
use crate::out;
use layout::MAX_THREADS;
use page::Page;
use report::Summary;
use std::io;

// Writes the summaries of those that are present.
pub fn summaries(
    rt: &impl Print,
    page: &mut Page,
    threads: [Summary; MAX_THREADS],
) -> io::Result<()> {
    out::put(rt, page, |page| summary::put_heading(page, 0))?;
    for (t, end) in threads.iter().enumerate() {
        out::put(rt, page, |page| summary::put_thread(page, 0, t, *end))?;
    }
    Ok(())
}

// Writes the row at which each blocked thread waits.
pub fn waiting(
    rt: &impl Print,
    page: &mut Page,
    table: &[u8],
    trace: &[u8],
    threads: [Summary; MAX_THREADS],
) -> io::Result<()> {
    let held = steps::held::after(table, trace, steps::count(trace));
    for (t, end) in threads.iter().enumerate() {
        out::put(rt, page, |page| {
            stop::put_waits(page, 0, table, &held, t as u8, end.state)
        })?;
    }
    Ok(())
}
