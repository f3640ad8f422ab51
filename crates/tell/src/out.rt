// Pages and lines, written to standard output.
use page::Page;
use std::io;

// Writes what a function puts on a page; it answers how many bytes that are.
pub fn put<F: FnOnce(&mut Page) -> usize>(
    rt: &impl Print,
    page: &mut Page,
    put: F,
) -> io::Result<()>
    requires { F.IsAlwaysCallable put }
{
    let to = put(page);
    match page.get(..to) {
        Some(text) => rt.write_all(text),
        None => Ok(()),
    }
}

// Writes a line that is one text.
pub fn line(rt: &impl Print, text: &[u8]) -> io::Result<()> {
    rt.write_all(text)?;
    rt.write_all(b"\n")
}
