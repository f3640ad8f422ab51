// The entries for texts. What the reader and the writer answer goes out as numbers.
ghost use Rattle.std.specs.Prelude.{◌≡◌};
ghost use Rattle.reader.specs.Lines.{text_answer_of};
ghost use Rattle.writer.specs.Answers.{written_of};
ghost use Rattle.exports.specs.Texts.{read_numbers, written_numbers, read_left, read_entered, written_left, written_entered};

use crate::NO_RUN;
use condition::CONDITION_BYTES;
use reader::{TABLE_BYTES, Taken, Untaken};
use writer::Unwritten;

// How many numbers the two entries write.
pub const READ_NUMBERS: usize = 5;

pub const WRITE_NUMBERS: usize = 2;

// What became of a text that was to be read or written, as the header for C has it: numbers, for C.
const DONE: u64 = 0;

const REFUSED: u64 = 1;

const NO_ROOM: u64 = 2;

// Reads a text into a table and a condition. `numbers` takes exactly 5: 0 read, 1 refused, 2 a buffer too small; the lengths of table
// and condition, or those that the buffers need; line and column of a refusal. Answers the first; with another length of `numbers`
// 255, and nothing is written.
#[unsafe(no_mangle)]
pub extern "C" fn chjirvollu_read(
    text: &[u8],
    table: &mut [u8],
    condition: &mut [u8],
    numbers: &mut [u64],
) -> u64
    ensures { read_left result table.new condition.new numbers.new ≡ read_entered text.now table.old condition.old numbers.old }
{
    if numbers.len() != READ_NUMBERS {
        return NO_RUN;
    }
    let five = read_numbers(reader::read(text, table, condition));
    numbers.copy_from_slice(&five);
    five[0]
}

// Writes a table and a condition as a text. `numbers` takes exactly 2: 0 written, 1 refused, 2 the buffer too small; the text's
// length, or the one that it needs. Answers the first; with another length of `numbers` 255, and nothing is written.
#[unsafe(no_mangle)]
pub extern "C" fn chjirvollu_write(
    table: &[u8],
    condition: &[u8],
    text: &mut [u8],
    numbers: &mut [u64],
) -> u64
    ensures { written_left result text.new numbers.new ≡ written_entered table.now condition.now text.old numbers.old }
{
    if numbers.len() != WRITE_NUMBERS {
        return NO_RUN;
    }
    let two = written_numbers(writer::write(table, condition, text));
    numbers.copy_from_slice(&two);
    two[0]
}

// The reader's answer as numbers.
fn read_numbers(read: Result<Taken, Untaken>) -> [u64; READ_NUMBERS]
    ensures { result ≡ read_numbers (text_answer_of read) }
{
    match read {
        Ok(taken) => [DONE, taken.table as u64, taken.condition as u64, 0, 0],
        Err(Untaken::NoRoom) => [NO_ROOM, TABLE_BYTES as u64, CONDITION_BYTES as u64, 0, 0],
        Err(Untaken::Refused(line, column)) => [REFUSED, 0, 0, line as u64, column as u64],
    }
}

// The writer's.
fn written_numbers(written: Result<usize, Unwritten>) -> [u64; WRITE_NUMBERS]
    ensures { result ≡ written_numbers (written_of written) }
{
    match written {
        Ok(length) => [DONE, length as u64],
        Err(Unwritten::Unfit) => [REFUSED, 0],
        Err(Unwritten::Short(needed)) => [NO_ROOM, needed as u64],
    }
}
