// What is wrong with a condition: its length, the first byte that cannot stand where it does, or what goes on behind its end.
#![tactic(auto)]

ghost use Rattle.std.specs.Prelude.{◌≡◌, ◌<◌, length};
ghost use Rattle.page.specs.Pages.{page_of};
ghost use Rattle.bad_condition.specs.Conditions.{put_bad_comparison, put_reason, put_bad, put_bad_condition};

use condition::{COMPARISON, CONDITION_BYTES, DEEP, OPENS, REGISTER_AT, THREAD_AT};
use layout::{REGISTERS, wide8, wide16};
use page::Page;
use table::THREADS;

// Says what is wrong first.
pub fn put(page: &mut Page, at: usize, table: &[u8], condition: &[u8]) -> usize
    ensures { page_of page.new result ≡ put_bad_condition (page_of page.old at) table.now condition.now }
{
    if CONDITION_BYTES < condition.len() {
        return page::fill(
            page,
            at,
            b"answer 5: refused: the condition has # bytes: there may be up to #\n",
            condition.len() as u64,
            CONDITION_BYTES as u64,
            0,
        );
    }
    let shape = table::shape(table);
    let threads = wide16(shape[THREADS]);
    match condition::first_bad(condition, threads) {
        Err(bad) => put_bad(page, at, condition, threads, bad.at),
        Ok(end) => page::fill(
            page,
            at,
            b"answer 5: refused: the condition ends before byte #, and # bytes were given\n",
            end as u64,
            condition.len() as u64,
            0,
        ),
    }
}

// The byte that cannot stand there, with the reason where it is plain.
fn put_bad(page: &mut Page, at: usize, condition: &[u8], threads: usize, from: usize) -> usize
    ensures { page_of page.new result ≡ put_bad (page_of page.old at) condition.now from threads }
{
    if condition.len() <= from {
        return page::fill(
            page,
            at,
            b"answer 5: refused: the condition breaks off behind its last byte: it has #\n",
            condition.len() as u64,
            0,
            0,
        );
    }
    let to = page::fill(
        page,
        at,
        b"answer 5: refused: the condition: byte # is #, which cannot stand there",
        from as u64,
        wide8(condition[from]) as u64,
        0,
    );
    let to = put_reason(page, to, condition, threads, from);
    page::put(page, to, b"\n")
}

// The reason: that of a comparison that begins there; or how deep groups may stand in each other, where one opens.
fn put_reason(page: &mut Page, at: usize, condition: &[u8], threads: usize, from: usize) -> usize
    requires { from < length condition.now }
    ensures { page_of page.new result ≡ put_reason (page_of page.old at) condition.now from threads }
{
    let byte = condition[from];
    if condition::is_sign(byte) {
        return put_bad_comparison(page, at, condition, threads, from);
    }
    if byte == OPENS {
        return page::fill(
            page,
            at,
            b": groups stand in each other at most # deep",
            DEEP as u64,
            0,
            0,
        );
    }
    at
}

// What a comparison that begins there has wrong, if anything.
fn put_bad_comparison(
    page: &mut Page,
    at: usize,
    condition: &[u8],
    threads: usize,
    from: usize,
) -> usize
    requires { from < length condition.now }
    ensures { page_of page.new result ≡ put_bad_comparison (page_of page.old at) condition.now from threads }
{
    if condition.len() - from < COMPARISON {
        return page::put(page, at, b": its comparison breaks off");
    }
    let thread = wide8(condition[from + THREAD_AT]);
    if threads <= thread {
        return page::fill(
            page,
            at,
            b": thread # is none: they count from 0, and the table has #",
            thread as u64,
            threads as u64,
            0,
        );
    }
    let register = wide8(condition[from + REGISTER_AT]);
    if REGISTERS <= register {
        return page::fill(page, at, b": register # is none", register as u64, 0, 0);
    }
    at
}
