// What is wrong with a row: which of its fields, by crate reasons.
#![tactic(auto)]

ghost use Rattle.std.specs.Prelude.{◌≡◌, ◌<◌};
ghost use Rattle.decode.specs.Ops.{row_meant, room_meant};
ghost use Rattle.table.specs.Answers.{room_in};
ghost use Rattle.page.specs.Pages.{page_of};
ghost use Rattle.bad_row.specs.Rows.{thread_row, put_bad_row};

use decode::Row;
use layout::{MAX_THREADS, wide8, wide16};
use page::Page;
use reasons::Room;
use table::{CELLS, COUNTS, FIRSTS, PLAINS, Shape, THREADS};

mod words;

// Puts what is wrong with this row of this thread, in one line; nothing where there can be no such thread.
pub fn put(page: &mut Page, at: usize, table: &[u8], thread: u8, row: u8) -> usize
    ensures { page_of page.new result ≡ put_bad_row (page_of page.old at) table.now thread row }
{
    let t = wide8(thread);
    if MAX_THREADS <= t {
        return at;
    }
    let shape = table::shape(table);
    let room = room_in(&shape, t, row);
    let fields = thread_row(table, &shape, t, row);
    let to = page::fill(
        page,
        at,
        b"answer 5: refused: thread #, row #: ",
        thread as u64,
        row as u64,
        0,
    );
    let to = words::put(page, to, fields, room, reasons::wrong(fields, room));
    page::put(page, to, b"\n")
}

// What this row of this thread may name, in a table of this shape.
fn room_in(shape: &Shape, thread: usize, row: u8) -> Room
    requires { thread < 5 }
    ensures { room_meant result ≡ room_in shape.now thread row }
{
    Room {
        threads: wide16(shape[THREADS]),
        cells: wide16(shape[CELLS]),
        plains: wide16(shape[PLAINS]),
        rows: wide16(shape[COUNTS + thread]),
        row: wide8(row),
    }
}

// The fields of the row itself.
fn thread_row(table: &[u8], shape: &Shape, thread: usize, row: u8) -> Row
    requires { thread < 5 }
    ensures { row_meant result ≡ thread_row table.now shape.now thread row }
{
    let values = wide16(shape[CELLS]) + wide16(shape[PLAINS]);
    let index = wide16(shape[FIRSTS + thread]) + wide8(row);
    table::row_at(table, values, index)
}
