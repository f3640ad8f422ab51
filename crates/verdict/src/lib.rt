// The verdict on a run. Its first line begins with the answer's number, `answer N:`, and says what happened: exhausted, failed,
// no verdict or refused. Behind it stands what was covered where nothing failed, or what to do where a limit ended the run.
#![tactic(auto)]

ghost use Rattle.std.specs.Prelude.{◌≡◌};
ghost use Rattle.page.specs.Pages.{page_of};
ghost use Rattle.settings.specs.Given.{settings_of};
ghost use Rattle.report.specs.Answers.{report_of};
ghost use Rattle.verdict.specs.Verdicts.{put_verdict, put_passed, put_refused, put_check, put_wanted, put_failed};

use decode::Op;
use page::Page;
use report::{AtFault, Report, answers};
use settings::Settings;

// Puts the verdict.
pub fn put(
    page: &mut Page,
    at: usize,
    table: &[u8],
    condition: &[u8],
    trace: &[u8],
    settings: Settings,
    report: Report,
) -> usize
    ensures { page_of page.new result ≡ put_verdict (page_of page.old at) table.now condition.now trace.now (settings_of settings) (report_of report) }
{
    let answer = report.answer;
    let number = report::number(answer);
    let site = report::at_fault(answer);
    if limit::is_limit(number) {
        return limit::put(page, at, trace, settings, number, site);
    }
    if report::is_refusal(number) {
        return put_refused(page, at, table, condition, number, site);
    }
    match number {
        answers::EXHAUSTED => put_passed(page, at, table, condition, settings, report.begun),
        answers::RACE => {
            let kind = report::race_kind(answer);
            let other = report::other_thread(answer);
            race::put(page, at, table, trace, site, kind, other)
        }
        answers::CHECK => put_check(page, at, table, trace, site),
        answers::UNMET => finally::put(page, at, table, condition, trace),
        _ => put_failed(page, at, number, site),
    }
}

// Nothing failed: what was covered, and that the final condition was true, where there is one.
fn put_passed(
    page: &mut Page,
    at: usize,
    table: &[u8],
    condition: &[u8],
    settings: Settings,
    begun: u64,
) -> usize
    ensures { page_of page.new result ≡ put_passed (page_of page.old at) table.now condition.now (settings_of settings) begun }
{
    let to = coverage::put(page, at, table, settings, begun);
    if condition.is_empty() {
        return to;
    }
    page::put(
        page,
        to,
        b"the final condition was true at the end of every execution\n",
    )
}

// What is wrong with what was given.
fn put_refused(
    page: &mut Page,
    at: usize,
    table: &[u8],
    condition: &[u8],
    number: u64,
    site: AtFault,
) -> usize
    ensures { page_of page.new result ≡ put_refused (page_of page.old at) table.now condition.now number site.thread site.row }
{
    match number {
        answers::BAD_SETTINGS => page::put(
            page,
            at,
            b"answer 2: refused: the settings are out of range\n",
        ),
        answers::BAD_PATH => page::put(
            page,
            at,
            b"answer 3: refused: the path buffer has the wrong length\n",
        ),
        answers::BAD_TRACE => page::put(
            page,
            at,
            b"answer 4: refused: the trace buffer has the wrong length\n",
        ),
        _ => refusal::put(page, at, table, condition, site),
    }
}

// A check that failed, with what its register holds.
fn put_check(page: &mut Page, at: usize, table: &[u8], trace: &[u8], site: AtFault) -> usize
    ensures { page_of page.new result ≡ put_check (page_of page.old at) table.now trace.now site.thread site.row }
{
    let to = page::fill(
        page,
        at,
        b"answer 15: failed: the check at thread #, row #",
        site.thread,
        site.row,
        0,
    );
    let to = put_wanted(
        page,
        to,
        table,
        trace,
        (site.thread % 256) as u8,
        (site.row % 256) as u8,
    );
    page::put(page, to, b"\n")
}

// What the check of this row wants, and what is there; nothing where the row is no check.
fn put_wanted(page: &mut Page, at: usize, table: &[u8], trace: &[u8], thread: u8, row: u8) -> usize
    ensures { page_of page.new result ≡ put_wanted (page_of page.old at) table.now trace.now thread row }
{
    let Some(op) = steps::row_of(table, thread, row) else {
        return at;
    };
    let Op::Check { register, a } = op else {
        return at;
    };
    let held = steps::held::after(table, trace, steps::count(trace));
    let value = steps::held::register(&held, thread, register);
    page::fill(
        page,
        at,
        b": r# should be # and is #",
        register as u64,
        a,
        value,
    )
}

// What else stops a run where it goes wrong.
fn put_failed(page: &mut Page, at: usize, number: u64, site: AtFault) -> usize
    ensures { page_of page.new result ≡ put_failed (page_of page.old at) number site.thread site.row }
{
    match number {
        answers::DEADLOCK => page::put(
            page,
            at,
            b"answer 10: failed: deadlock: no thread can run, and not every thread has ended\n",
        ),
        answers::EQUAL_ORDERS => page::fill(
            page,
            at,
            b"answer 13: failed: two stores that a load may read have no order between them, at thread #, row #\n",
            site.thread,
            site.row,
            0,
        ),
        answers::FLAGS => page::fill(
            page,
            at,
            b"answer 16: failed: `critical` while exploring is off, or `explore_state` while it is on, at thread #, row #\n",
            site.thread,
            site.row,
            0,
        ),
        _ => page::fill(
            page,
            at,
            b"answer #: stopped by a mistake of the explorer itself, at thread #, row #: please report it\n",
            number,
            site.thread,
            site.row,
        ),
    }
}
