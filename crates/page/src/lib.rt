// A page of output that grows from the left: a buffer, and beside it the place where its text ends. What does not fit is left out; no
// part of a report that is put on one page is that long. The programs write it.
#![tactic(auto)]

ghost use Rattle.std.specs.Prelude.{◌≡◌};
ghost use Rattle.digits.specs.Shown.{shown};
ghost use Rattle.page.specs.Pages.{page_of, put_text, put_one, put_filled, padded, right_at};

use digits::MOST_DIGITS;

pub const PAGE_BYTES: usize = 16384;

pub type Page = [u8; PAGE_BYTES];

// Puts a text behind the end, `at`; answers the new end.
pub fn put(page: &mut Page, at: usize, text: &[u8]) -> usize
    ensures { page_of page.new result ≡ put_text (page_of page.old at) text.now }
{
    if PAGE_BYTES < at {
        return at;
    }
    let n = (PAGE_BYTES - at).min(text.len());
    page[at..at + n].copy_from_slice(&text[..n]);
    at + n
}

// Puts a number, in decimal.
pub fn put_number(page: &mut Page, at: usize, n: u64) -> usize
    ensures { page_of page.new result ≡ put_text (page_of page.old at) (shown n) }
{
    let mut digits = [0u8; MOST_DIGITS];
    let k = digits::spell(&mut digits, n);
    put(page, at, &digits[..k])
}

// Puts a text and a number behind it.
pub fn put_with(page: &mut Page, at: usize, text: &[u8], n: u64) -> usize
    ensures { page_of page.new result ≡ put_text (put_text (page_of page.old at) text.now) (shown n) }
{
    let to = put(page, at, text);
    put_number(page, to, n)
}

// Puts a text in which each `#` stands for a number: for the three in turn.
pub fn fill(page: &mut Page, at: usize, text: &[u8], a: u64, b: u64, c: u64) -> usize
    ensures { page_of page.new result ≡ put_filled (page_of page.old at) text.now a b c }
{
    let mut to = at;
    let mut now = a;
    let mut next = b;
    for byte in text {
        to = put_byte(page, to, *byte, now);
        if *byte == b'#' {
            now = next;
            next = c;
        }
    }
    to
}

// Puts a byte, or the number where the byte stands for one.
fn put_byte(page: &mut Page, at: usize, byte: u8, n: u64) -> usize
    ensures { page_of page.new result ≡ put_one (page_of page.old at) byte n }
{
    if byte == b'#' {
        return put_number(page, at, n);
    }
    if PAGE_BYTES <= at {
        return at;
    }
    page[at] = byte;
    at + 1
}

// Puts spaces up to a column.
pub fn pad(page: &mut Page, at: usize, column: usize) -> usize
    ensures { page_of page.new result ≡ padded (page_of page.old at) column }
{
    let end = column.min(PAGE_BYTES);
    if end <= at {
        return at;
    }
    page[at..end].fill(b' ');
    end
}

// Puts a number so that it ends at a column.
pub fn put_right(page: &mut Page, at: usize, column: usize, n: u64) -> usize
    ensures { page_of page.new result ≡ right_at (page_of page.old at) column n }
{
    let to = pad(page, at, column.saturating_sub(digits::count(n)));
    put_number(page, to, n)
}
