// The lines of standard input, through one buffer that must hold the longest of them.
ghost use Rattle.std.specs.Prelude.{◌≡◌, ◌+◌, ◌≤◌, length, IfOk};

use crate::compare;
use crate::fields::{LONGEST_LINE, NoCase};
use crate::tally::Tally;
use std::io;
use std::io::Read;

// The buffer's size: where it is full, a line is longer.
pub const LINE_ROOM: usize = LONGEST_LINE + 1;

// Replays every line of the input. Nothing says that an input ends, so no more is read than any input has. A line that is no case is
// named, and from there on nothing is replayed, and there is no tally.
pub fn replay<R: Read>(
    rt: &(impl Print + Eprint),
    input: &mut R,
    text: &mut [u8],
    path: &mut [u8],
    trace: &mut [u8],
) -> io::Result<Option<Tally>> {
    let mut now = Some(Tally::default());
    let mut kept = 0;
    for _ in 0..u64::MAX {
        match read_more(input, text, kept) {
            Ok(0) => return last_line(rt, text, path, trace, kept, now),
            Ok(got) => {
                kept += got;
                if let Some(last) = text[..kept].iter().rposition(|byte| *byte == b'\n') {
                    now = lines(rt, &text[..last], path, trace, now)?;
                    text[..kept].rotate_left(last + 1);
                    kept -= last + 1;
                }
            }
            Err(_) => {
                eprintln!(rt; "standard input cannot be read")?;
                return Ok(None);
            }
        }
    }
    Ok(now)
}

// Reads once, behind the first `kept` bytes. Where those fill the buffer, no more is read, as at the input's end.
fn read_more<R: Read>(input: &mut R, text: &mut [u8], kept: usize) -> io::Result<usize>
    ensures within { IfOk result (λ n. kept ≤ length text.new → kept + n ≤ length text.new) }
    ensures len { length text.new ≡ length text.old }
{
    if text.len() <= kept {
        return Ok(0);
    }
    input.read(&mut text[kept..])
}

// The line behind which the input ended, if there is one. If the buffer is full, it is the start of a longer one.
fn last_line(
    rt: &(impl Print + Eprint),
    text: &[u8],
    path: &mut [u8],
    trace: &mut [u8],
    kept: usize,
    now: Option<Tally>,
) -> io::Result<Option<Tally>> {
    if text.len() <= kept {
        return match now {
            Some(tally) => tally.next_line().refuse(rt, NoCase::TooLong),
            None => Ok(None),
        };
    }
    if kept == 0 {
        return Ok(now);
    }
    line(rt, &text[..kept], path, trace, now)
}

// Replays each line of a text; the last one's end is not part of it.
fn lines(
    rt: &(impl Print + Eprint),
    text: &[u8],
    path: &mut [u8],
    trace: &mut [u8],
    before: Option<Tally>,
) -> io::Result<Option<Tally>> {
    let mut now = before;
    for text in text.split(|byte| *byte == b'\n') {
        now = line(rt, text, path, trace, now)?;
    }
    Ok(now)
}

// Replays one line, unless it is empty or a comment, or a line before it was no case.
fn line(
    rt: &(impl Print + Eprint),
    text: &[u8],
    path: &mut [u8],
    trace: &mut [u8],
    before: Option<Tally>,
) -> io::Result<Option<Tally>> {
    let Some(before) = before else {
        return Ok(None);
    };
    let now = before.next_line();
    if matches!(text, [] | [b'#', ..]) {
        return Ok(Some(now));
    }
    match compare::replay_line(text, path, trace) {
        Ok(agreement) => Ok(Some(now.with(rt, text, agreement)?)),
        Err(why) => now.refuse(rt, why),
    }
}
