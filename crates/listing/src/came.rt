// What came of a step, in words.
ghost use Rattle.std.specs.Prelude.{◌≡◌};
ghost use Rattle.page.specs.Pages.{page_of};
ghost use Rattle.listing.specs.Words.{put_read, put_taken, put_came};

use outcome::Came;
use page::Page;

// Puts it; a dash where nothing came of it that could be said.
pub fn put(page: &mut Page, at: usize, came: Option<Came>) -> usize
    ensures { page_of page.new result ≡ put_came (page_of page.old at) came }
{
    let Some(came) = came else {
        return page::put(page, at, b"-");
    };
    match came {
        Came::Read(value, writer) => put_read(page, at, value, writer),
        Came::Stored(value) => page::put_with(page, at, b"stored ", value),
        Came::Wrote(read, writer, written) => {
            let to = put_read(page, at, read, writer);
            page::put_with(page, to, b"; wrote ", written)
        }
        Came::Failed(read, writer) => {
            let to = put_read(page, at, read, writer);
            page::put(page, to, b"; failed, wrote nothing")
        }
        Came::Left(before, after) => page::fill(page, at, b"found #, left #", before, after, 0),
        Came::Took(bit) => page::put_with(page, at, b"took ", bit),
        Came::Jumped(taken) => put_taken(page, at, taken),
        Came::Passed => page::put(page, at, b"passed"),
        Came::Written(value) => page::put_with(page, at, b"wrote ", value),
    }
}

// A value that was read, and the step that wrote it.
fn put_read(page: &mut Page, at: usize, value: u64, writer: u64) -> usize
    ensures { page_of page.new result ≡ put_read (page_of page.old at) value writer }
{
    if writer == 0 {
        return page::fill(page, at, b"read #, the start value", value, 0, 0);
    }
    page::fill(page, at, b"read #, from step #", value, writer, 0)
}

// Whether a jump was taken.
fn put_taken(page: &mut Page, at: usize, taken: bool) -> usize
    ensures { page_of page.new result ≡ put_taken (page_of page.old at) taken }
{
    if taken {
        return page::put(page, at, b"taken");
    }
    page::put(page, at, b"not taken")
}
