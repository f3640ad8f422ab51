// The buffers of a case: what they hold before a run, and what the list says of them after it.
use crate::compare::{Difference, Place};
use crate::fields;

// How long the two buffers are: as the settings' most, and more, for the cases that ask for a wrong length.
pub const BUFFER_ROOM: usize = 70000;

// What byte `i` of a buffer is before a run.
pub fn pattern(i: usize) -> u8 {
    ((7 * (i % 256) + 90) % 256) as u8
}

// Gives a buffer the bytes that it has before a run.
pub fn fill(buffer: &mut [u8]) {
    for (i, byte) in buffer.iter_mut().enumerate() {
        *byte = pattern(i);
    }
}

// Holds a buffer to the list's text of it: `=` for unchanged, else hex without the zero bytes at the end, `-` for none. A text that is
// longer than the buffer differs behind its end.
pub fn compare<F: Fn(usize) -> Place>(
    buffer: &[u8],
    text: &[u8],
    place: F,
) -> Result<(), Difference>
    requires { F.IsAlwaysCallable place }
{
    for (i, byte) in buffer.iter().enumerate() {
        let listed = listed_byte(text, i);
        if *byte != listed {
            return Err(Difference {
                place: place(i),
                given: u64::from(*byte),
                listed: u64::from(listed),
            });
        }
    }
    if matches!(text, b"=") || text.len() / 2 <= buffer.len() {
        return Ok(());
    }
    Err(Difference {
        place: place(buffer.len()),
        given: 0,
        listed: u64::from(listed_byte(text, buffer.len())),
    })
}

// Byte `i` of the buffer that a text describes.
fn listed_byte(text: &[u8], i: usize) -> u8 {
    if matches!(text, b"=") {
        return pattern(i);
    }
    match text.as_chunks::<2>().0.get(i) {
        Some([high, low]) => fields::hex_byte(*high, *low).unwrap_or(0),
        None => 0,
    }
}
