// One row of a program's text: which form its line has, and what stands for each of the form's letters.
#![tactic(auto)]

ghost use Rattle.std.specs.Prelude.{◌≡◌, [], ◌∷◌, cond, drop};
ghost use Rattle.rules.specs.Table.{any_order};
ghost use Rattle.rules.specs.Token.{ends_line, next_line};
ghost use Rattle.rules.specs.Form as Form;
ghost use Rattle.rules.specs.Form.{field_of, letter_in, value_of, with_field, fits, stuck, follow, most_words, row_in, fields_as_bytes};
ghost use Rattle.token.specs.Places.{part};
ghost use Rattle.token.specs.Finds.{found_of};
ghost use Rattle.decode.specs.Ops.{room_meant};
ghost use Rattle.form.specs.Rows.{FollowsForm};
ghost use Rattle.form.specs.Letters.{found_field, field_in, kind_in, may_stand};
ghost use Rattle.form.specs.Lines.{coded};

pub use decode::Room;
use decode::{is_fence_order, is_load_order, is_store_order};
use layout::order::SEQ_CST;
use little::low_bytes;
use table::fields::{FAILURE, KIND, OBJECT, OPCODE, ORDER, REGISTER, TARGET};
use table::limits::ROW_BYTES;

// No form has as many words.
const MOST_WORDS: usize = 10;

// What stands for a number that is no order.
const NO_ORDER: u8 = 255;

// A row's fields in the order in which they stand in its bytes: opcode, cell or thread, order, failure order, change kind, register, jump
// target, a, b.
pub type Fields = [u64; FIELDS];

pub const FIELDS: usize = 9;

// The numbers of the operands' fields; those before them have their places for numbers.
const OPERAND_A: usize = TARGET + 1;

const OPERAND_B: usize = TARGET + 2;

// A line that was read, of a form: its fields, and the place of the next line. For a line of none stands the place of the first token that
// no form has there.
#[derive(Clone, Copy)]
pub struct RowRead {
    pub at: usize,
    pub fields: Fields,
}

// Where a form's line has its change kind and its words, behind its opcode.
pub const FORM_KIND: usize = 1;

pub const FORM_WORDS: usize = 2;

// The forms, a line for each: its opcode, its change kind and its words. A capital letter stands for a field. Opcodes and kinds stand here
// as document 01 numbers them: no name can stand in a string.
pub const FORMS: [u8; 904] = *b"\
\x00\x00R = load C L
\x01\x00store A to C S
\x02\x00store R to C S
\x03\x00R = swap A on C O
\x03\x01R = add A on C O
\x03\x02R = sub A on C O
\x03\x03R = and A on C O
\x03\x04R = or A on C O
\x03\x05R = xor A on C O
\x03\x06R = nand A on C O
\x03\x07R = max A on C O
\x03\x08R = min A on C O
\x03\x09R = signed_max A on C O
\x03\x0aR = signed_min A on C O
\x03\x0bR = compare_exchange A B on C O X
\x03\x0cR = decrement on C O X
\x04\x00fence F
\x05\x00R = unsync_load C
\x06\x00R = with_mut swap A on C
\x06\x01R = with_mut add A on C
\x06\x02R = with_mut sub A on C
\x06\x03R = with_mut and A on C
\x06\x04R = with_mut or A on C
\x06\x05R = with_mut xor A on C
\x06\x06R = with_mut nand A on C
\x06\x07R = with_mut max A on C
\x06\x08R = with_mut min A on C
\x06\x09R = with_mut signed_max A on C
\x06\x0aR = with_mut signed_min A on C
\x06\x0bR = with_mut compare_exchange A B on C
\x06\x0cR = with_mut decrement on C
\x07\x00yield
\x08\x00join T
\x09\x00jump G
\x0a\x00if R = A jump J
\x0b\x00if R != A jump J
\x0c\x00check R = A
\x0d\x00critical
\x0e\x00explore_state
\x0f\x00skip_branch
\x10\x00R = branch_spurious
\x11\x00R = read P
\x12\x00write A to P
";

// The row that stands in this line, or the place where it fits no form.
pub fn row_in(text: &[u8], room: Room, at: usize) -> Result<RowRead, usize>
    ensures { FollowsForm text.now at (row_in (room_meant room) (drop at text.now)) result }
{
    tried(text, &FORMS, room, at)
}

// A row's bytes: opcode, cell or thread, order, failure order, change kind, register, the jump target's two, and eight of each operand.
// Of a field that is a byte its lowest eight bits are taken: a text may name more threads than a table has, until it is refused.
pub fn row_bytes(fields: Fields) -> [u8; ROW_BYTES]
    ensures { result ≡ fields_as_bytes fields }
{
    let target = low_bytes(fields[TARGET]);
    let a = low_bytes(fields[OPERAND_A]);
    let b = low_bytes(fields[OPERAND_B]);
    [
        (fields[OPCODE] % 256) as u8,
        (fields[OBJECT] % 256) as u8,
        (fields[ORDER] % 256) as u8,
        (fields[FAILURE] % 256) as u8,
        (fields[KIND] % 256) as u8,
        (fields[REGISTER] % 256) as u8,
        target[0],
        target[1],
        a[0],
        a[1],
        a[2],
        a[3],
        a[4],
        a[5],
        a[6],
        a[7],
        b[0],
        b[1],
        b[2],
        b[3],
        b[4],
        b[5],
        b[6],
        b[7],
    ]
}

// Tries one form after the other, and keeps the furthest place.
fn tried(text: &[u8], forms: &[u8], room: Room, at: usize) -> Result<RowRead, usize>
    requires { forms.now ≡ coded Form.forms }
    ensures { FollowsForm text.now at (row_in (room_meant room) (drop at text.now)) result }
{
    let mut best = token::past_blanks(text, at);
    let mut from = 0;
    // A form's bytes may be those that end a line, so the list is not split at them: where one ends, the next begins.
    while from < forms.len() {
        let to = token::next_line(forms, from + FORM_WORDS);
        let words = token::part(forms, from + FORM_WORDS, to - 1);
        let blank = blank(forms[from], forms[from + FORM_KIND]);
        match followed(text, words, room, blank, at) {
            Ok(row) => return Ok(row),
            Err(stuck) => best = best.max(stuck),
        }
        from = to;
    }
    Err(best)
}

// The fields of a form before any is read.
fn blank(opcode: u8, kind: u8) -> Fields
    ensures { result ≡ opcode ∷ 0 ∷ 0 ∷ 0 ∷ kind ∷ 0 ∷ 0 ∷ 0 ∷ 0 ∷ [] }
{
    [opcode as u64, 0, 0, 0, kind as u64, 0, 0, 0, 0]
}

// Follows a form along the line, word by word.
fn followed(
    text: &[u8],
    words: &[u8],
    room: Room,
    blank: Fields,
    at: usize,
) -> Result<RowRead, usize>
    ensures { FollowsForm text.now at (follow most_words (room_meant room) words.now blank (drop at text.now)) result }
{
    let mut fields = blank;
    let mut from = 0;
    let mut to = at;
    for i in 0..MOST_WORDS {
        let start = token::past_blanks(words, from);
        let here = token::past_blanks(text, to);
        if words.len() <= start {
            return ended(text, fields, here);
        }
        from = token::token_end(words, start);
        to = token::token_end(text, here);
        let piece = token::part(words, start, from);
        let Some(value) = value_of(text, piece, room, here, to) else {
            return Err(here);
        };
        let more = with_field(piece, fields, value);
        fields = more;
    }
    Err(token::past_blanks(text, to))
}

// Past the last word nothing else may stand in the line.
fn ended(text: &[u8], fields: Fields, at: usize) -> Result<RowRead, usize>
    ensures { FollowsForm text.now at (cond (ends_line (drop at text.now)) (fits fields (next_line (drop at text.now))) (stuck (drop at text.now))) result }
{
    if !token::ends_line(text, at) {
        return Err(at);
    }
    let at = token::next_line(text, at);
    Ok(RowRead { at, fields })
}

// What a token stands for where a form has this piece: a letter alone stands for a field, every other word for itself.
fn value_of(text: &[u8], piece: &[u8], room: Room, at: usize, to: usize) -> Option<u64>
    ensures { found_of result ≡ value_of (room_meant room) piece.now (part at to text.now) }
{
    if field_in(piece).is_some() {
        return letter_in(text, room, piece[0], at, to);
    }
    token::is_word(text, piece, at, to).then_some(0)
}

// The fields with this one's value.
fn with_field(piece: &[u8], mut fields: Fields, value: u64) -> Fields
    ensures { result ≡ with_field fields piece.now value }
{
    if let Some(field) = field_in(piece) {
        fields[field] = value;
    }
    fields
}

// The field that a piece stands for, if any.
fn field_in(piece: &[u8]) -> Option<usize>
    ensures { result ≡ found_field (field_in piece.now) }
{
    let [letter] = piece else {
        return None;
    };
    field_of(*letter)
}

// The field that a letter stands for, if any.
pub fn field_of(letter: u8) -> Option<usize>
    ensures { result ≡ found_field (field_of letter) }
{
    match letter {
        b'R' => Some(REGISTER),
        b'C' | b'T' | b'P' => Some(OBJECT),
        b'J' | b'G' => Some(TARGET),
        b'A' => Some(OPERAND_A),
        b'B' => Some(OPERAND_B),
        b'L' | b'S' | b'O' | b'F' => Some(ORDER),
        b'X' => Some(FAILURE),
        _ => None,
    }
}

// What a word stands for where a form has this letter.
fn letter_in(text: &[u8], room: Room, letter: u8, at: usize, to: usize) -> Option<u64>
    ensures { found_of result ≡ letter_in (room_meant room) letter (part at to text.now) }
{
    let value = kind_in(text, letter, at, to)?;
    may_stand(room, letter, value).then_some(value)
}

// The register, plain cell, number or order that a word is.
fn kind_in(text: &[u8], letter: u8, at: usize, to: usize) -> Option<u64>
    ensures { found_of result ≡ kind_in letter (part at to text.now) }
{
    match letter {
        b'R' => token::register(text, at, to),
        b'P' => token::plain(text, at, to),
        b'C' | b'T' | b'J' | b'G' | b'A' | b'B' => token::number(text, at, to),
        _ => token::order(text, at, to),
    }
}

// Whether the field may have this value.
fn may_stand(room: Room, letter: u8, value: u64) -> bool
    ensures { result ≡ may_stand (room_meant room) letter value }
{
    match letter {
        b'C' => value < room.cells as u64,
        b'P' => value < room.plains as u64,
        b'T' => value < room.threads as u64,
        b'J' => value <= room.rows as u64,
        b'G' => (value <= room.rows as u64) & (value != room.row as u64),
        b'L' | b'X' => is_load_order(order_of(value)),
        b'S' => is_store_order(order_of(value)),
        b'F' => is_fence_order(order_of(value)),
        _ => true,
    }
}

// The order of this number as a row has it; of any other number, one that no row has.
// A byte and no Option: the three tests take any byte, and refuse that one.
fn order_of(value: u64) -> u8
    ensures { result ≡ cond (any_order value) value 255 }
{
    if value <= SEQ_CST as u64 {
        return value as u8;
    }
    NO_ORDER
}
