// The counts of a run and the summaries of its threads, a line at a time, each put at the page's begin, from which its columns count.
#![tactic(auto)]

ghost use Rattle.std.specs.Prelude.{◌≡◌};
ghost use Rattle.page.specs.Pages.{page_of};
ghost use Rattle.report.specs.Answers.{summary_of};
ghost use Rattle.summary.specs.Summaries.{put_count, put_ledger, put_heading, put_thread, put_state, put_legend};

use page::Page;
use report::{Counts, Summary};
use thread::{ABSENT, BLOCKED, RUNNABLE, YIELDED};

// The columns: where a count ends; where a thread's number ends, its state begins, and its rows begun, its yields and its version end.
const COUNT_TO: usize = 24;

const THREAD_TO: usize = 6;

const STATE_FROM: usize = 8;

const ROWS_TO: usize = 28;

const YIELDS_TO: usize = 36;

const VERSION_TO: usize = 45;

// One count, with its name in front.
pub fn put_count(page: &mut Page, at: usize, name: &[u8], n: u64) -> usize
    ensures { page_of page.new result ≡ put_count (page_of page.old at) name.now n }
{
    let to = page::put(page, at, name);
    let to = page::put_right(page, to, COUNT_TO, n);
    page::put(page, to, b"\n")
}

// The ledger: every execution but the first takes up a choice that was opened.
pub fn put_ledger(page: &mut Page, at: usize, counts: Counts) -> usize
    ensures { page_of page.new result ≡ put_ledger (page_of page.old at) counts.begun counts.opened counts.still_open }
{
    let to = page::put_with(page, at, b"ledger: ", counts.begun);
    let to = page::put_with(page, to, b" = 1 + ", counts.opened);
    let to = page::put_with(page, to, b" \xe2\x88\x92 ", counts.still_open);
    page::put(page, to, b"\n")
}

// The names of the columns, behind an empty line.
pub fn put_heading(page: &mut Page, at: usize) -> usize
    ensures { page_of page.new result ≡ put_heading (page_of page.old at) }
{
    page::put(
        page,
        at,
        b"\nthread  state     rows begun  yields  version\n",
    )
}

// The summary of one thread, or nothing where it is absent.
pub fn put_thread(page: &mut Page, at: usize, thread: usize, end: Summary) -> usize
    ensures { page_of page.new result ≡ put_thread (page_of page.old at) thread (summary_of end) }
{
    if end.state == ABSENT {
        return at;
    }
    let to = page::put_right(page, at, THREAD_TO, thread as u64);
    let to = page::pad(page, to, STATE_FROM);
    let to = put_state(page, to, end.state);
    let to = page::put_right(page, to, ROWS_TO, end.rows as u64);
    let to = page::put_right(page, to, YIELDS_TO, end.yields as u64);
    let to = page::put_right(page, to, VERSION_TO, end.version as u64);
    page::put(page, to, b"\n")
}

// A thread's state in a word.
fn put_state(page: &mut Page, at: usize, state: u16) -> usize
    ensures { page_of page.new result ≡ put_state (page_of page.old at) state }
{
    match state {
        RUNNABLE => page::put(page, at, b"runnable"),
        BLOCKED => page::put(page, at, b"blocked"),
        YIELDED => page::put(page, at, b"yielded"),
        _ => page::put(page, at, b"ended"),
    }
}

// What the columns mean whose names do not say it, behind an empty line.
pub fn put_legend(page: &mut Page, at: usize) -> usize
    ensures { page_of page.new result ≡ put_legend (page_of page.old at) }
{
    let to = page::put(
        page,
        at,
        b"\nslot: where its cell keeps a store; a cell keeps seven, and its start value is the first, in slot 0\n",
    );
    let to = page::put(
        page,
        to,
        b"offered: the slots that a load may read; where there are several, each is tried\n",
    );
    page::put(
        page,
        to,
        b"version: counts a thread's atomic accesses, fences and joins, from 1 (thread 0: from 2)\n",
    )
}
