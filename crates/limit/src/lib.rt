// Answers 1, 11, 12 and 17: a limit ended the run, which is no verdict.
#![tactic(auto)]

ghost use Rattle.std.specs.Prelude.{◌≡◌};
ghost use Rattle.page.specs.Pages.{page_of};
ghost use Rattle.settings.specs.Given.{settings_of};
ghost use Rattle.limit.specs.Limits.{is_limit, put_budget, put_reached, put_raise, put_spent, put_to_do, put_spin, put_limit};

use page::Page;
use path::MAX_PREEMPTIONS;
use report::{AtFault, answers};
use settings::{MAX_BOUND, MAX_BRANCHES, MAX_EXECUTIONS, MAX_OPERATIONS, Settings};

// Whether a limit ended the run, which is no verdict.
pub fn is_limit(number: u64) -> bool
    ensures { result ≡ is_limit number }
{
    matches!(
        number,
        answers::SPENT | answers::FULL | answers::ROWS | answers::PREEMPTIONS
    )
}

// Says which limit, which setting to raise, and whether the execution went round in a loop.
pub fn put(
    page: &mut Page,
    at: usize,
    trace: &[u8],
    settings: Settings,
    number: u64,
    site: AtFault,
) -> usize
    ensures { page_of page.new result ≡ put_limit (page_of page.old at) trace.now (settings_of settings) number site.thread site.row }
{
    let to = put_reached(page, at, settings, number, site);
    let to = put_to_do(page, to, settings, number);
    put_spin(page, to, trace)
}

// Which limit was reached.
fn put_reached(page: &mut Page, at: usize, settings: Settings, number: u64, site: AtFault) -> usize
    ensures { page_of page.new result ≡ put_reached (page_of page.old at) (settings_of settings) number site.thread site.row }
{
    match number {
        answers::SPENT => put_budget(page, at, settings.executions),
        answers::FULL => page::fill(
            page,
            at,
            b"answer 11: no verdict: an execution needs more branches than the limit, #, at thread #, row #\n",
            settings.branches,
            site.thread,
            site.row,
        ),
        answers::ROWS => page::fill(
            page,
            at,
            b"answer 12: no verdict: an execution needs more rows than the limit, #, at thread #, row #\n",
            settings.operations,
            site.thread,
            site.row,
        ),
        _ => page::fill(
            page,
            at,
            b"answer 17: no verdict: an order of the threads has more than # preemptions, at thread #, row #\n",
            MAX_PREEMPTIONS as u64,
            site.thread,
            site.row,
        ),
    }
}

// The budget of executions, which no row reaches.
fn put_budget(page: &mut Page, at: usize, executions: u64) -> usize
    ensures { page_of page.new result ≡ put_budget (page_of page.old at) executions }
{
    page::fill(
        page,
        at,
        b"answer 1: no verdict: the budget of executions, #, is spent, and choices are open\n",
        executions,
        0,
        0,
    )
}

// What to do about it.
fn put_to_do(page: &mut Page, at: usize, settings: Settings, number: u64) -> usize
    ensures { page_of page.new result ≡ put_to_do (page_of page.old at) (settings_of settings) number }
{
    match number {
        answers::SPENT => put_spent(page, at, settings.executions),
        answers::FULL => put_raise(page, at, b"--branches", settings.branches, MAX_BRANCHES),
        answers::ROWS => put_raise(
            page,
            at,
            b"--operations",
            settings.operations,
            MAX_OPERATIONS,
        ),
        _ => page::fill(
            page,
            at,
            b"to do: make the program smaller, or leave such orders out, and others with them, by --bound #\n",
            MAX_BOUND,
            0,
            0,
        ),
    }
}

// The budget can be raised, or fewer orders tried.
fn put_spent(page: &mut Page, at: usize, executions: u64) -> usize
    ensures { page_of page.new result ≡ put_spent (page_of page.old at) executions }
{
    let to = put_raise(page, at, b"--executions", executions, MAX_EXECUTIONS);
    page::put(
        page,
        to,
        b"to do: or try fewer orders, by --bound; the verdict then says what that left out\n",
    )
}

// Which setting to raise, if it is not at its most.
fn put_raise(page: &mut Page, at: usize, name: &[u8], given: u64, most: u64) -> usize
    ensures { page_of page.new result ≡ put_raise (page_of page.old at) name.now given most }
{
    if given < most {
        let to = page::put(page, at, b"to do: raise ");
        let to = page::put(page, to, name);
        return page::fill(
            page,
            to,
            b", which is # and may be up to #\n",
            given,
            most,
            0,
        );
    }
    let to = page::put(page, at, b"to do: make the program smaller, for ");
    let to = page::put(page, to, name);
    page::fill(page, to, b" is at its most, #\n", most, 0, 0)
}

// Where the last steps repeat, a loop waits.
fn put_spin(page: &mut Page, at: usize, trace: &[u8]) -> usize
    ensures { page_of page.new result ≡ put_spin (page_of page.old at) trace.now }
{
    let n = steps::count(trace);
    let Some(p) = spin::period(trace, n) else {
        return at;
    };
    if spin::yields(trace, n, p) {
        return page::fill(
            page,
            at,
            b"hint: the last steps repeat the same # rows, a yield among them: do threads wait for each other?\n",
            p as u64,
            0,
            0,
        );
    }
    page::fill(
        page,
        at,
        b"hint: the last steps repeat the same # rows: a loop that waits? `yield` in it lets the others run\n",
        p as u64,
        0,
        0,
    )
}
