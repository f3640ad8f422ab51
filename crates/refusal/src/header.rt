// What is wrong with a header, or with a table's length, in the order of the bytes.
ghost use Rattle.std.specs.Prelude.{◌≡◌, ◌<◌, ◌≤◌, length, IfSome};
ghost use Rattle.rules.specs.Table.{header_bytes, size_of, values_of, counts_of, count_fine, total};
ghost use Rattle.page.specs.Pages.{page_of};
ghost use Rattle.refusal.specs.Headers.{is_count, bad_count, put_rows, put_behind, put_header};

use layout::{MAX_CELLS, MAX_PLAINS, MAX_THREADS, wide8, wide16};
use page::Page;
use table::limits::{
    CELL_COUNT, HEADER_BYTES, MAX_ROWS, PLAIN_COUNT, ROW_BYTES, ROW_COUNTS, THREAD_COUNT,
    VALUE_BYTES,
};
use table::{LAST_COUNT, LAST_FIRST};

// Puts what is wrong first, in one line.
pub fn put(page: &mut Page, at: usize, table: &[u8]) -> usize
    ensures { page_of page.new result ≡ put_header (page_of page.old at) table.now }
{
    if table.len() < HEADER_BYTES {
        return page::fill(
            page,
            at,
            b"answer 5: refused: the table has # bytes, and its header alone has #\n",
            table.len() as u64,
            HEADER_BYTES as u64,
            0,
        );
    }
    let threads = wide8(table[THREAD_COUNT]);
    if !is_count(threads, MAX_THREADS) {
        return page::fill(
            page,
            at,
            b"answer 5: refused: byte # says # threads: there may be 1 to #\n",
            THREAD_COUNT as u64,
            threads as u64,
            MAX_THREADS as u64,
        );
    }
    let cells = wide8(table[CELL_COUNT]);
    if !is_count(cells, MAX_CELLS) {
        return page::fill(
            page,
            at,
            b"answer 5: refused: byte # says # cells: there may be 1 to #\n",
            CELL_COUNT as u64,
            cells as u64,
            MAX_CELLS as u64,
        );
    }
    put_behind(page, at, table, threads)
}

// Whether there may be so many: there is one at least.
fn is_count(n: usize, most: usize) -> bool
    ensures { result ≡ is_count n most }
{
    (1..=most).contains(&n)
}

// What is wrong behind the cell count: a row count, the plain cells, or else the length.
fn put_behind(page: &mut Page, at: usize, table: &[u8], threads: usize) -> usize
    requires { header_bytes ≤ length table.now }
    ensures { page_of page.new result ≡ put_behind (page_of page.old at) table.now threads }
{
    if let Some(thread) = bad_count(table, threads) {
        let count = wide8(table[ROW_COUNTS + thread]);
        return put_rows(page, at, thread, count, threads);
    }
    let plains = wide8(table[PLAIN_COUNT]);
    if MAX_PLAINS < plains {
        return page::fill(
            page,
            at,
            b"answer 5: refused: byte # says # plain cells: there may be 0 to #\n",
            PLAIN_COUNT as u64,
            plains as u64,
            MAX_PLAINS as u64,
        );
    }
    page::fill(
        page,
        at,
        b"answer 5: refused: the table should have # bytes and has #\n",
        size(table) as u64,
        table.len() as u64,
        0,
    )
}

// The length of a table with this header.
fn size(table: &[u8]) -> usize
    requires { header_bytes ≤ length table.now }
    ensures { result ≡ size_of (values_of table.now) (total (counts_of table.now)) }
{
    let shape = table::shape(table);
    let values = wide8(table[CELL_COUNT]) + wide8(table[PLAIN_COUNT]);
    let rows = wide16(shape[LAST_COUNT]) + wide16(shape[LAST_FIRST]);
    HEADER_BYTES + VALUE_BYTES * values + ROW_BYTES * rows
}

// The first thread whose row count is wrong.
fn bad_count(table: &[u8], threads: usize) -> Option<usize>
    requires { header_bytes ≤ length table.now }
    ensures same { result ≡ bad_count table.now threads }
    ensures there { IfSome result (λ thread. thread < 5) }
{
    for thread in 0..MAX_THREADS {
        let count = wide8(table[ROW_COUNTS + thread]);
        if !table::count_fine(thread, count, threads) {
            return Some(thread);
        }
    }
    None
}

// A thread has more rows than there may be.
fn put_rows(page: &mut Page, at: usize, thread: usize, count: usize, threads: usize) -> usize
    requires { thread < 5 }
    ensures { page_of page.new result ≡ put_rows (page_of page.old at) threads thread count }
{
    let to = page::fill(
        page,
        at,
        b"answer 5: refused: byte # says that thread # has # rows",
        (ROW_COUNTS + thread) as u64,
        thread as u64,
        count as u64,
    );
    if thread < threads {
        return page::fill(page, to, b": there may be 0 to #\n", MAX_ROWS as u64, 0, 0);
    }
    page::put(page, to, b", and there is no such thread: it must be 0\n")
}
