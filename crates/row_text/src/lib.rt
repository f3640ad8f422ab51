// A row of a table in a line of output, as it stands in a text.
#![tactic(auto)]

ghost use Rattle.std.specs.Prelude.{◌≡◌};
ghost use Rattle.rules.specs.Table.{row_at};
ghost use Rattle.page.specs.Pages.{page_of, put_text};
ghost use Rattle.row_text.specs.Rows.{row_words, row_said};

use layout::{MAX_THREADS, wide8, wide16};
use page::Page;
use table::{CELLS, FIRSTS, PLAINS};

// The longest row's line has fewer bytes.
const ROW_LINE: usize = 256;

// How many blanks a text has before a row.
const BLANKS: usize = 2;

// Puts this row of a thread; nothing for a thread that no table has.
pub fn put(page: &mut Page, at: usize, table: &[u8], thread: u8, row: u8) -> usize
    ensures { page_of page.new result ≡ put_text (page_of page.old at) (row_said table.now thread row) }
{
    let t = wide8(thread);
    if MAX_THREADS <= t {
        return at;
    }
    let shape = table::shape(table);
    let values = wide16(shape[CELLS]) + wide16(shape[PLAINS]);
    let first = wide16(shape[FIRSTS + t]);
    put_at(page, at, table, values, first + wide8(row))
}

// The row of this number among all rows of a table with so many start values.
fn put_at(page: &mut Page, at: usize, table: &[u8], values: usize, index: usize) -> usize
    ensures { page_of page.new result ≡ put_text (page_of page.old at) (row_words (row_at table.now values index)) }
{
    let mut text = [0u8; ROW_LINE];
    let to = row_line::put_row(&mut text, 0, table, values, index);
    if ROW_LINE < to {
        return at;
    }
    if to <= BLANKS {
        return at;
    }
    page::put(page, at, &text[BLANKS..to - 1])
}
