// One row of a table as a line of text.
#![tactic(auto)]

ghost use Rattle.std.specs.Prelude.{◌≡◌, ◌+◌, ◌≤◌, length, get_or};
ghost use Rattle.rules.specs.Table.{row_at};
ghost use Rattle.rules.specs.Form as Form;
ghost use Rattle.rules.specs.Writer.{form_shown, form_in, fields_of, row_shown};
ghost use Rattle.form.specs.Lines.{coded};
ghost use Rattle.put.specs.Puts.{Puts};
ghost use Rattle.row_line.specs.Pieces.{piece_shown};

use form::{FORM_KIND, FORM_WORDS, FORMS, Fields};
use layout::{long8, long16};
use put::{put_byte, put_bytes, put_number, put_order};
use table::fields::{FAILURE, KIND, OPCODE, ORDER};

// The row of this number among all rows of a table with so many start values.
pub fn put_row(text: &mut [u8], at: usize, table: &[u8], values: usize, index: usize) -> usize
    ensures { Puts text.old text.new at (row_shown (row_at table.now values index)) result }
{
    let fields = fields_at(table, values, index);
    let first = put_bytes(text, at, b"  ");
    let behind = put_form(text, first, &FORMS, fields);
    put_byte(text, behind, b'\n')
}

// That row's fields; those of no row where the table does not hold it.
fn fields_at(table: &[u8], values: usize, index: usize) -> Fields
    ensures { result ≡ fields_of (row_at table.now values index) }
{
    let row = table::row_at(table, values, index);
    [
        long8(row.opcode),
        long8(row.object),
        long8(row.order),
        long8(row.failure),
        long8(row.kind),
        long8(row.register),
        long16(row.target),
        row.a,
        row.b,
    ]
}

// The words of the row's form, with its fields. The forms are those of crate form, a line for each.
fn put_form(text: &mut [u8], at: usize, forms: &[u8], fields: Fields) -> usize
    requires { forms.now ≡ coded Form.forms }
    ensures { Puts text.old text.new at (form_shown (form_in (get_or fields 0 0) (get_or fields 4 0) Form.forms).words fields) result }
{
    let opcode = fields[OPCODE];
    let kind = fields[KIND];
    let mut from = 0;
    // A form's bytes may be those that end a line, so the list is not split at them: where one ends, the next begins.
    while from < forms.len() {
        let to = token::next_line(forms, from + FORM_WORDS);
        if (long8(forms[from]) == opcode) & (long8(forms[from + FORM_KIND]) == kind) {
            return put_words(
                text,
                at,
                token::part(forms, from + FORM_WORDS, to - 1),
                fields,
            );
        }
        from = to;
    }
    at
}

// A form's words, with the fields for its letters.
fn put_words(text: &mut [u8], at: usize, words: &[u8], fields: Fields) -> usize
    ensures { Puts text.old text.new at (form_shown words.now fields) result }
{
    let mut to = at;
    for &byte in words {
        to = put_piece(text, to, byte, fields);
    }
    to
}

// A letter's field, or a byte that stands for itself.
fn put_piece(text: &mut [u8], at: usize, byte: u8, fields: Fields) -> usize
    ensures { Puts text.old text.new at (piece_shown byte fields) result }
{
    let Some(field) = form::field_of(byte) else {
        return put_byte(text, at, byte);
    };
    let value = fields[field];
    if byte == b'R' {
        let behind = put_byte(text, at, b'r');
        return put_number(text, behind, value);
    }
    if byte == b'P' {
        let behind = put_byte(text, at, b'p');
        return put_number(text, behind, value);
    }
    if (field == ORDER) | (field == FAILURE) {
        return put_order(text, at, value);
    }
    put_number(text, at, value)
}
