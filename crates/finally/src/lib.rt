// Answer 18: the final condition is false. It is put as in a text, and then each of its comparisons, with what its register holds.
#![tactic(auto)]

ghost use Rattle.std.specs.Prelude.{◌≡◌, length};
ghost use Rattle.rules.specs.Token.{bytes_of};
ghost use Rattle.page.specs.Pages.{page_of, put_text};
ghost use Rattle.unmet.specs.Parts.{claim_shown};
ghost use Rattle.finally.specs.Finals.{truth, condition_words, put_compared, put_parts, put_finally};

use condition::{COMPARISON, CONDITION_BYTES};
use layout::wide16;
use page::Page;
use steps::held::Held;
use table::THREADS;
use unmet::Part;

// The bytes before the words in a condition's line: `finally` and a blank.
const WORD: usize = 8;

// No condition's line has more bytes: a byte of the longest condition is four of its line at most, and its first word and its end have
// room in the rest.
const CONDITION_LINE: usize = 4 * CONDITION_BYTES + 64;

// Puts that it is false, the whole of it, and each part.
pub fn put(page: &mut Page, at: usize, table: &[u8], condition: &[u8], trace: &[u8]) -> usize
    ensures { page_of page.new result ≡ put_finally (page_of page.old at) table.now condition.now trace.now }
{
    let to = page::put(
        page,
        at,
        b"answer 18: failed: every thread has ended, and the final condition is false\n",
    );
    let shape = table::shape(table);
    let threads = wide16(shape[THREADS]);
    let held = steps::held::after(table, trace, steps::count(trace));
    let to = put_whole(page, to, condition, threads);
    put_parts(page, to, condition, &held, threads)
}

// The condition's line.
fn put_whole(page: &mut Page, at: usize, condition: &[u8], threads: usize) -> usize
    ensures { page_of page.new result ≡ put_text (page_of page.old at) (claim_shown threads condition.now) }
{
    let mut text = [0u8; CONDITION_LINE];
    let end = unmet::put(&mut text, 0, condition, threads);
    if CONDITION_LINE < end {
        return at;
    }
    page::put(page, at, &text[..end])
}

// Each comparison, in their order. There are fewer than the condition has bytes.
fn put_parts(page: &mut Page, at: usize, condition: &[u8], held: &Held, threads: usize) -> usize
    ensures { page_of page.new result ≡ put_parts (length condition.now) (page_of page.old at) condition.now threads held.now 0 }
{
    let mut to = at;
    let mut behind = 0;
    for _part in 0..condition.len() {
        let Some(from) = unmet::next_comparison(condition, behind) else {
            return to;
        };
        let Some(part) = unmet::part_at(condition, held, from) else {
            return to;
        };
        to = put_compared(page, to, &condition[from..from + COMPARISON], part, threads);
        behind = from + COMPARISON;
    }
    to
}

// One: whether it is true, its words, and what its register holds.
fn put_compared(page: &mut Page, at: usize, bytes: &[u8], part: Part, threads: usize) -> usize
    ensures { page_of page.new result ≡ put_compared (page_of page.old at) bytes.now threads part }
{
    let to = put_truth(page, at, part.holds);
    let to = put_words(page, to, bytes, threads);
    page::fill(
        page,
        to,
        b", for #.r# is #\n",
        part.thread as u64,
        part.register as u64,
        part.value,
    )
}

// Whether it is true.
fn put_truth(page: &mut Page, at: usize, holds: bool) -> usize
    ensures { page_of page.new result ≡ put_text (page_of page.old at) (bytes_of (truth holds)) }
{
    if holds {
        return page::put(page, at, b"  true: ");
    }
    page::put(page, at, b"  false: ")
}

// A condition's words: its line without the first word and the end.
fn put_words(page: &mut Page, at: usize, bytes: &[u8], threads: usize) -> usize
    ensures { page_of page.new result ≡ put_text (page_of page.old at) (condition_words (claim_shown threads bytes.now)) }
{
    let mut text = [0u8; CONDITION_LINE];
    let end = unmet::put(&mut text, 0, bytes, threads);
    if CONDITION_LINE < end {
        return at;
    }
    if end <= WORD {
        return at;
    }
    page::put(page, at, &text[WORD..end - 1])
}
