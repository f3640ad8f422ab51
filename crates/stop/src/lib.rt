// Where the last execution stopped: the row at fault, or whom each blocked thread waits for.
#![tactic(auto)]

ghost use Rattle.std.specs.Prelude.{◌≡◌};
ghost use Rattle.page.specs.Pages.{page_of};
ghost use Rattle.stop.specs.Stops.{put_how, put_row, put_place, put_waits};

use layout::MAX_THREADS;
use page::Page;
use report::AtFault;
use steps::held::Held;
use table::limits::MAX_ROWS;
use thread::BLOCKED;

// The row that failed, or at which a limit stopped the run, if there is one.
pub fn put_place(page: &mut Page, at: usize, table: &[u8], site: AtFault, limited: bool) -> usize
    ensures { page_of page.new result ≡ put_place (page_of page.old at) table.now limited site.thread site.row }
{
    if MAX_THREADS as u64 <= site.thread || (MAX_ROWS as u64) < site.row {
        return at;
    }
    let to = put_how(page, at, limited);
    let to = page::fill(page, to, b": thread #, row #: ", site.thread, site.row, 0);
    let to = put_row(
        page,
        to,
        table,
        (site.thread % 256) as u8,
        (site.row % 256) as u8,
    );
    page::put(page, to, b"\n")
}

// Whether a limit stopped it, or it failed.
fn put_how(page: &mut Page, at: usize, limited: bool) -> usize
    ensures { page_of page.new result ≡ put_how (page_of page.old at) limited }
{
    if limited {
        return page::put(page, at, b"stopped");
    }
    page::put(page, at, b"failed")
}

// A row as in a text; a thread past its last row was ending.
fn put_row(page: &mut Page, at: usize, table: &[u8], thread: u8, row: u8) -> usize
    ensures { page_of page.new result ≡ put_row (page_of page.old at) table.now thread row }
{
    if steps::row_count(table, thread) <= row {
        return page::put(page, at, b"the thread's end");
    }
    row_text::put(page, at, table, thread, row)
}

// The row at which a thread in this state waits, if it is blocked.
pub fn put_waits(
    page: &mut Page,
    at: usize,
    table: &[u8],
    held: &Held,
    thread: u8,
    state: u16,
) -> usize
    ensures { page_of page.new result ≡ put_waits (page_of page.old at) table.now held.now thread state }
{
    if state != BLOCKED {
        return at;
    }
    let row = steps::held::next_row(held, thread);
    let to = page::fill(
        page,
        at,
        b"failed: thread #, row #, waits without an end: ",
        thread as u64,
        row,
        0,
    );
    let to = row_text::put(page, to, table, thread, (row % 256) as u8);
    page::put(page, to, b"\n")
}
