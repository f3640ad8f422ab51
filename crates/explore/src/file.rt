// The bytes of a file.
ghost use Rattle.std.specs.Prelude.{◌≤◌, length, IfOk};

use source::FILE_BYTES;
use std::fs::File;
use std::io::{Cursor, Error, ErrorKind, Read, Write};
use std::rt::Files;
use std::{io, str};

// Reads the whole file, or as much of it as there is room for. Where it cannot be read, one line says why, and there is nothing.
pub fn read<'a>(
    rt: &impl Files,
    errors: &impl Print,
    name: &[u8],
    buffer: &'a mut [u8],
) -> io::Result<Option<&'a [u8]>> {
    match read_named(rt, name, buffer) {
        Ok(n) => Ok(Some(&buffer[..n])),
        Err(why) => {
            unreadable(errors, name, why)?;
            Ok(None)
        }
    }
}

// Says that a file is longer than a text or table may be.
pub fn too_long(errors: &impl Print, name: &[u8]) -> io::Result<()> {
    errors.write_all(b"explore: ")?;
    errors.write_all(name)?;
    println!(errors; ": more than {FILE_BYTES} bytes, which no text or table may have")
}

// Says why the file cannot be read: the words of the system, without the number that stands in brackets behind.
fn unreadable(errors: &impl Print, name: &[u8], why: Error) -> io::Result<()> {
    let mut to = Cursor::new([0u8; WHY_ROOM]);
    let _ = write!(to, "{why}");
    let end = to.position() as usize;
    let text = to.into_inner();
    errors.write_all(b"explore: ")?;
    errors.write_all(name)?;
    errors.write_all(b": ")?;
    errors.write_all(words(token::part(&text, 0, end)))?;
    errors.write_all(b"\n")
}

// More than the words of an error take.
const WHY_ROOM: usize = 256;

// What stands before the first ` (`.
fn words(text: &[u8]) -> &[u8] {
    match text.windows(2).position(|two| matches!(two, b" (")) {
        Some(end) => &text[..end],
        None => text,
    }
}

// Opens the file and reads it. A name that is not UTF-8 is none that can be opened.
fn read_named(rt: &impl Files, name: &[u8], buffer: &mut [u8]) -> io::Result<usize>
    ensures { IfOk result (λ n. n ≤ length buffer.new) }
{
    let Ok(path) = str::from_utf8(name) else {
        return Err(Error::from(ErrorKind::InvalidFilename));
    };
    let mut file = File::open(rt, path)?;
    read_all(buffer, &mut file)
}

// Reads until the file ends or the buffer is full. A read may bring any number of bytes, so there is no range for a `for`.
fn read_all<R: Read>(buffer: &mut [u8], file: &mut R) -> io::Result<usize>
    ensures { IfOk result (λ n. n ≤ length buffer.new) }
{
    let mut n = 0;
    while n < buffer.len() {
        let got = file.read(&mut buffer[n..])?;
        if got == 0 {
            break;
        }
        n += got;
    }
    Ok(n)
}
