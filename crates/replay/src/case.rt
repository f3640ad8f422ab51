// A case of the list: what a run is given, and what the list says that it answers.
use crate::fields;
use crate::fields::{FIELDS, Fields, NoCase};
use numbers::REPORT_NUMBERS;
use settings::{MAX_BOUND, Settings, bound_of};

// The numbers of two fields, counted from 1: the table and the condition.
pub const TABLE: usize = 10;

pub const CONDITION: usize = FIELDS + 1;

// The longest table that a line may hold, longer than any that is accepted.
pub const MOST_TABLE: usize = 8192;

// The longest path or trace buffer, and the longest thread list, that a line may ask for.
const MOST_BUFFER: u64 = 1000000;

const MOST_LIST: u64 = 1000;

// The numbers of a report.
pub type Numbers = [u64; REPORT_NUMBERS];

// What a line says.
#[derive(Clone, Copy)]
pub struct Case<'a> {
    pub settings: Settings,
    // How long the two buffers are, and the thread list, where there is one.
    pub path: usize,
    pub trace: usize,
    pub list: Option<usize>,
    // The bytes in hex, `-` or nothing for none.
    pub table: &'a [u8],
    pub condition: &'a [u8],
    pub answer: Numbers,
    // What the two buffers then hold (buffers).
    pub path_left: &'a [u8],
    pub trace_left: &'a [u8],
}

impl<'a> Case<'a> {
    // Reads a line. Of the fields that are wrong, the first is told.
    pub fn read(line: &'a [u8]) -> Result<Self, NoCase> {
        let count = line.split(|byte| *byte == b' ').count();
        if count != FIELDS && count != FIELDS + 1 {
            return Err(NoCase::Count(count));
        }
        let mut fields = Fields::of(line);
        fields.text(|name| !name.is_empty())?;
        let branches = fields.number(u64::MAX)?;
        let operations = fields.number(u64::MAX)?;
        let executions = fields.number(u64::MAX)?;
        let bound = fields.number_or_none(MAX_BOUND)?;
        let settings = Settings {
            branches,
            operations,
            executions,
            bound: bound_of(bound.unwrap_or(u64::MAX)),
            exploring: fields.number(1)? == 1,
        };
        let path = fields.number(MOST_BUFFER)? as usize;
        let trace = fields.number(MOST_BUFFER)? as usize;
        let list = fields.number_or_none(MOST_LIST)?.map(|n| n as usize);
        let table = fields.text(|text| matches!(text, b"-") || fields::is_hex(text))?;
        let answer = read_answer(&mut fields)?;
        fields.text(fields::is_hex)?;
        fields.text(|left| matches!(left, b"-" | b"=" | b"+"))?;
        let path_left = fields.text(is_left)?;
        let trace_left = fields.text(is_left)?;
        let condition = match count {
            FIELDS => fields.next(),
            _ => fields.text(fields::is_hex)?,
        };
        Ok(Case {
            settings,
            path,
            trace,
            list,
            table,
            condition,
            answer,
            path_left,
            trace_left,
        })
    }
}

// The report's numbers.
fn read_answer(fields: &mut Fields<'_>) -> Result<Numbers, NoCase> {
    let mut answer = [0u64; REPORT_NUMBERS];
    for number in answer.iter_mut() {
        *number = fields.number(u64::MAX)?;
    }
    Ok(answer)
}

// Whether a text can say what a buffer holds after a run.
fn is_left(text: &[u8]) -> bool {
    matches!(text, b"-" | b"=") || fields::is_hex(text)
}

// A table's or a condition's bytes, if there is room for them.
pub fn bytes<'a>(text: &[u8], room: &'a mut [u8; MOST_TABLE]) -> Option<&'a [u8]> {
    let (pairs, _) = text.as_chunks::<2>();
    let bytes = room.get_mut(..pairs.len())?;
    for (byte, [high, low]) in bytes.iter_mut().zip(pairs) {
        *byte = fields::hex_byte(*high, *low)?;
    }
    Some(bytes)
}
