// A program and its final condition read from a text, into two buffers that the caller lends. Each promise is an equation with the
// definition in rules (Text).
#![tactic(auto)]

ghost use Rattle.std.specs.Prelude.{◌≡◌, drop};
ghost use Rattle.rules.specs.Condition.{condition_bytes};
ghost use Rattle.rules.specs.Text as rules;
ghost use Rattle.filling.specs.Tables.{HoldsTable, Blank};
ghost use Rattle.reader.specs.Lines.{Closes, TextAnswers, with_buffers};

use condition::CONDITION_BYTES;
use filling::{Line, Reached};
pub use table::limits::TABLE_BYTES;
use table::limits::{HEADER_BYTES, THREAD_COUNT};

// A text that is taken: the lengths of its table and its condition.
#[derive(Clone, Copy)]
pub struct Taken {
    pub table: usize,
    pub condition: usize,
}

// Why a text was not taken: a buffer was too short; or it is refused at a line and column, both from 1.
#[derive(Clone, Copy)]
pub enum Untaken {
    NoRoom,
    Refused(usize, usize),
}

// Reads a text. A refusal leaves zeros in both buffers, and a text that is taken zeros behind its bytes; without room they stay as they
// are.
pub fn read(text: &[u8], table: &mut [u8], condition: &mut [u8]) -> Result<Taken, Untaken>
    ensures { with_buffers result table.new condition.new ≡ rules.read_into text.now table.old condition.old }
{
    if table.len() < TABLE_BYTES {
        return Err(Untaken::NoRoom);
    }
    if condition.len() < CONDITION_BYTES {
        return Err(Untaken::NoRoom);
    }
    trace::clear_all(table);
    trace::clear_all(condition);
    match lines_from(text, table, condition) {
        Ok(taken) => Ok(taken),
        Err(at) => {
            trace::clear_all(table);
            trace::clear_all(condition);
            let place = ahead::place_of(text, at);
            Err(Untaken::Refused(place.line, place.column))
        }
    }
}

// All lines, over buffers of zeros; or the place at which they are refused.
fn lines_from(text: &[u8], table: &mut [u8], condition: &mut [u8]) -> Result<Taken, usize>
    requires { Blank rules.table_bytes table.old × Blank condition_bytes condition.old }
    ensures { TextAnswers text.now table.new condition.new result (rules.read_text text.now) }
{
    let lines = text.len() + 1;
    let all = ahead::threads_ahead(text, lines, 0);
    let mut reached = Reached {
        rows: 0,
        length: HEADER_BYTES,
        at: 0,
    };
    for i in 0..lines {
        let line = filling::line_of(text, table, lines, all, reached)?;
        match line {
            Line::GoesOn(more) => reached = more,
            Line::Ended => {
                return Ok(Taken {
                    table: reached.length,
                    condition: 0,
                });
            }
            Line::Concludes(at) => {
                let end = Reached { at, ..reached };
                return concluded(text, table, condition, lines, end);
            }
        }
    }
    Err(reached.at)
}

// The condition is read and judged, and its bytes are written.
fn concluded(
    text: &[u8],
    table: &[u8],
    condition: &mut [u8],
    lines: usize,
    reached: Reached,
) -> Result<Taken, usize>
    requires { HoldsTable table.now reached.length × Blank condition_bytes condition.old }
    ensures { Closes text.now table.now condition.new reached.length result (λ m. rules.concluded lines m (drop reached.at text.now)) }
{
    let threads = table[THREAD_COUNT] as usize;
    let end = claims::concluded(text, lines, threads, reached.at)?;
    let bytes = end.bytes;
    let size = end.length;
    filling::append(condition, 0, token::part(&bytes, 0, size));
    Ok(Taken {
        table: reached.length,
        condition: size,
    })
}
