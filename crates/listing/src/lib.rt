// The last execution as text, a step a line: which thread did what by which row, as the row stands in a text, and what came of it.
// Columns count from a page's begin, so each line is put there; the caller writes one before it puts the next.
#![tactic(auto)]

ghost use Rattle.std.specs.Prelude.{◌<◌, ◌≡◌, length};
ghost use Rattle.page.specs.Pages.{page_of, put_text};
ghost use Rattle.steps.specs.Entries.{entry_read};
ghost use Rattle.listing.specs.Steps.{row_of_step, width_of, rows_end, put_head, put_numbers, put_slots, put_slot, put_offers, put_offer, put_step, is_shown, put_between};

use event::NO_SLOT;
use layout::MAX_ATOMIC_HISTORY;
use page::{PAGE_BYTES, Page};
use steps::held::Held;

mod came;

// The length of the longest row among the steps, and at least that of its heading.
pub fn width(table: &[u8], trace: &[u8]) -> usize
    ensures { result ≡ width_of table.now trace.now }
{
    let mut most = HEADING;
    for i in 0..steps::count(trace) {
        most = most.max(row_width(table, trace, i));
    }
    most
}

// How long the row of a step is.
fn row_width(table: &[u8], trace: &[u8], i: usize) -> usize
    ensures { result ≡ length (row_of_step table.now trace.now i) }
{
    let mut page = [0u8; PAGE_BYTES];
    put_row(&mut page, 0, table, trace, i)
}

// Puts the row of a step as it stands in a text.
fn put_row(page: &mut Page, at: usize, table: &[u8], trace: &[u8], i: usize) -> usize
    ensures { page_of page.new result ≡ put_text (page_of page.old at) (row_of_step table.now trace.now i) }
{
    let thread = steps::thread(trace, i);
    row_text::put(page, at, table, thread, steps::row(trace, i))
}

// The columns where a step's number, its thread and its row's number end. Steps are numbered by 16 bits, which no trace passes.
const STEP_TO: usize = 4;

const THREAD_TO: usize = 12;

const ROW_TO: usize = 17;

const STEPS: u64 = 65536;

// The column where the rows begin; how far behind their end the slots begin, a slot ends, the
// dash for none stands, the slots offered begin, and what came of it.
const ROWS: usize = 19;

const SLOT_FROM: usize = 2;

const SLOT_TO: usize = 6;

const DASH: usize = SLOT_TO - 1;

const OFFERED: usize = 8;

const CAME: usize = 23;

// How long the heading of the rows is.
const HEADING: usize = 9;

// Puts the names of the columns, where the rows have this width.
pub fn put_head(page: &mut Page, at: usize, width: usize) -> usize
    ensures { page_of page.new result ≡ put_head (page_of page.old at) width }
{
    let end = rows_end(width);
    let to = page::put(page, at, b"step  thread  row  operation");
    let to = page::pad(page, to, end + SLOT_FROM);
    let to = page::put(page, to, b"slot  offered");
    let to = page::pad(page, to, end + CAME);
    page::put(page, to, b"what came of it\n")
}

// The column where rows of this width end.
fn rows_end(width: usize) -> usize
    ensures { (result ≡ rows_end width) × (result < 275) }
{
    ROWS + width % 256
}

// Puts step `i`, by what was held before it.
pub fn put_step(
    page: &mut Page,
    at: usize,
    table: &[u8],
    trace: &[u8],
    held: &Held,
    width: usize,
    i: usize,
) -> usize
    ensures { page_of page.new result ≡ put_step (page_of page.old at) table.now trace.now held.now width i }
{
    let end = rows_end(width);
    let to = put_numbers(page, at, trace, i);
    let to = page::pad(page, to, ROWS);
    let to = put_row(page, to, table, trace, i);
    let to = put_slots(page, to, trace, i, end);
    let to = page::pad(page, to, end + CAME);
    let to = came::put(page, to, outcome::of_step(table, trace, held, i));
    page::put(page, to, b"\n")
}

// The step's number, its thread and its row's number.
fn put_numbers(page: &mut Page, at: usize, trace: &[u8], i: usize) -> usize
    ensures { page_of page.new result ≡ put_numbers (page_of page.old at) i (entry_read trace.now i) }
{
    let to = page::put_right(page, at, STEP_TO, i as u64 % STEPS + 1);
    let to = page::put_right(page, to, THREAD_TO, steps::thread(trace, i) as u64);
    page::put_right(page, to, ROW_TO, steps::row(trace, i) as u64)
}

// Its slot and the slots that it was offered, behind a row that ends at this column.
fn put_slots(page: &mut Page, at: usize, trace: &[u8], i: usize, end: usize) -> usize
    requires { end < 275 }
    ensures { page_of page.new result ≡ put_slots (page_of page.old at) end (entry_read trace.now i) }
{
    let to = put_slot(page, at, steps::slot(trace, i), end);
    let to = page::pad(page, to, end + OFFERED);
    put_offers(page, to, steps::mask(trace, i))
}

// The slot or a dash, ending `SLOT_TO` columns behind `end`.
fn put_slot(page: &mut Page, at: usize, slot: u8, end: usize) -> usize
    requires { end < 275 }
    ensures { page_of page.new result ≡ put_slot (page_of page.old at) end slot }
{
    if slot == NO_SLOT {
        let to = page::pad(page, at, end + DASH);
        return page::put(page, to, b"-");
    }
    page::put_right(page, at, end + SLOT_TO, slot as u64)
}

// The slots of a mask, as `0 2`, or a dash.
fn put_offers(page: &mut Page, at: usize, mask: u8) -> usize
    ensures { page_of page.new result ≡ put_offers (page_of page.old at) mask }
{
    let mut to = at;
    let mut first = true;
    let mut rest = mask;
    for slot in 0..MAX_ATOMIC_HISTORY as u64 {
        if rest % 2 == 1 {
            to = put_offer(page, to, slot, first);
            first = false;
        }
        rest = rest / 2;
    }
    if first {
        return page::put(page, to, b"-");
    }
    to
}

// One slot more, behind a space unless it is the first.
fn put_offer(page: &mut Page, at: usize, slot: u64, first: bool) -> usize
    ensures { page_of page.new result ≡ put_offer (page_of page.old at) first slot }
{
    if first {
        return page::put_number(page, at, slot);
    }
    page::put_with(page, at, b" ", slot)
}

// How many steps are shown at either end of an execution that is shortened. The line of `put_between` stands in the place of the step
// with this number, from 0: the first that is not shown.
pub const SHOWN: usize = 10;

// Whether a step is among the first or the last.
pub fn is_shown(n: usize, i: usize) -> bool
    ensures { result ≡ is_shown n i }
{
    i < SHOWN || n.saturating_sub(i) <= SHOWN
}

// Puts how many of `n` steps are not shown; nothing where all are.
pub fn put_between(page: &mut Page, at: usize, n: usize) -> usize
    ensures { page_of page.new result ≡ put_between (page_of page.old at) n }
{
    if 2 * SHOWN < n {
        return page::fill(
            page,
            at,
            b"   ..  # steps between; --all-rows shows them\n",
            (n - 2 * SHOWN) as u64,
            0,
            0,
        );
    }
    at
}
