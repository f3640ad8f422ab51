// The fields of a line of the list: texts between single spaces, decimal numbers and lowercase hex.
ghost use Rattle.std.specs.Prelude.{◌<◌, IfSome};

use numbers::REPORT_NUMBERS;
use std::fmt;

// A line with its answer has this many fields; a condition is one more, the last.
pub const FIELDS: usize = 10 + REPORT_NUMBERS + 4;

// The longest line.
pub const LONGEST_LINE: usize = 262144;

// Why a line is no case: it has another number of fields, the field of this number is wrong, or it is too long. Fields count from 1.
#[derive(Clone, Copy)]
pub enum NoCase {
    Count(usize),
    Field(usize),
    TooLong,
}

impl fmt::Display for NoCase {
    fn fmt<W: fmt::Write>(&self, f: &mut fmt::Formatter<W>) -> fmt::Result {
        match *self {
            NoCase::Count(count) => {
                let most = FIELDS + 1;
                write!(
                    f,
                    "an answered case has {FIELDS} fields, or {most} with a condition, and this line "
                )?;
                if FIELDS < count {
                    return write!(f, "more");
                }
                write!(f, "{count}")
            }
            NoCase::Field(field) => {
                write!(f, "field {field} is not what an answered case has there")
            }
            NoCase::TooLong => write!(f, "it is longer than {LONGEST_LINE} bytes"),
        }
    }
}

// The fields of a line that are not read yet, and how many were.
#[derive(Clone, Copy)]
pub struct Fields<'a> {
    rest: &'a [u8],
    read: usize,
}

impl<'a> Fields<'a> {
    // Those of a line.
    pub fn of(line: &'a [u8]) -> Self {
        Fields {
            rest: line,
            read: 0,
        }
    }

    // The next one; nothing behind the last.
    pub fn next(&mut self) -> &'a [u8] {
        let rest = self.rest;
        self.read = self.read.saturating_add(1);
        match rest.iter().position(|byte| *byte == b' ') {
            Some(end) => {
                self.rest = &rest[end + 1..];
                &rest[..end]
            }
            None => {
                self.rest = &rest[..0];
                rest
            }
        }
    }

    // The next one, which must be good.
    pub fn text<F: FnOnce(&[u8]) -> bool>(&mut self, is_good: F) -> Result<&'a [u8], NoCase>
        requires { F.IsAlwaysCallable is_good }
    {
        let text = self.next();
        if is_good(text) {
            return Ok(text);
        }
        Err(NoCase::Field(self.read))
    }

    // The number in the next one, from 0 to `most`.
    pub fn number(&mut self, most: u64) -> Result<u64, NoCase> {
        let text = self.next();
        number(text, most).ok_or(NoCase::Field(self.read))
    }

    // The number in the next one, which may be left out.
    pub fn number_or_none(&mut self, most: u64) -> Result<Option<u64>, NoCase> {
        let text = self.next();
        if matches!(text, b"-") {
            return Ok(None);
        }
        match number(text, most) {
            Some(value) => Ok(Some(value)),
            None => Err(NoCase::Field(self.read)),
        }
    }
}

// The decimal number that a text spells, from 0 to `most`, in the one way to write it: with no zero in front.
pub fn number(text: &[u8], most: u64) -> Option<u64> {
    if matches!(text, [b'0', _, ..]) {
        return None;
    }
    decimal::number_between(text, 0, most)
}

// The byte that two lowercase hex digits spell.
pub fn hex_byte(high: u8, low: u8) -> Option<u8> {
    Some(16 * hex_digit(high)? + hex_digit(low)?)
}

// The number that a lowercase hex digit spells.
pub fn hex_digit(byte: u8) -> Option<u8>
    ensures { IfSome result (λ n. n < 16) }
{
    match byte {
        b'0'..=b'9' => Some(byte - b'0'),
        b'a'..=b'f' => Some(byte - b'a' + 10),
        _ => None,
    }
}

// Whether a text is an even number of lowercase hex digits, at least two.
pub fn is_hex(text: &[u8]) -> bool {
    !text.is_empty() && text.len() % 2 == 0 && text.iter().all(|byte| hex_digit(*byte).is_some())
}
