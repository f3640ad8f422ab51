// What is wrong with a field of a row, in words.
ghost use Rattle.std.specs.Prelude.{◌≡◌};
ghost use Rattle.rules.specs.Token.{bytes_of};
ghost use Rattle.page.specs.Pages.{page_of, put_text};
ghost use Rattle.decode.specs.Ops.{row_meant, room_meant};
ghost use Rattle.bad_row.specs.Words.{field_value, object_name, field_name, part_past, put_present, put_last, put_may, put_unused, put_wrong};

use decode::Row;
use decode::kinds::DECREMENT;
use decode::opcodes::PLAIN_WRITE;
use layout::REGISTERS;
use layout::order::SEQ_CST;
use page::Page;
use reasons::{Field, May, Room, Unused};

const LAST_REGISTER: u8 = (REGISTERS - 1) as u8;

// Puts the field, what it is and what it may be.
pub fn put(page: &mut Page, at: usize, row: Row, room: Room, field: Field) -> usize
    ensures { page_of page.new result ≡ put_wrong (page_of page.old at) field (row_meant row) (room_meant room) }
{
    let opcode = row.opcode;
    let kind = row.kind;
    let value = field_value(row, field);
    let to = put_field(page, at, opcode, field);
    match reasons::may_be(field, opcode, kind) {
        Ok(may) => {
            let to = page::fill(page, to, b" # is none", value, 0, 0);
            put_may(page, to, room, may)
        }
        Err(Unused::ByOpcode) => put_unused(page, to, opcode, value),
        Err(Unused::ByKind) => page::fill(
            page,
            to,
            b" is #, and change kind # does not use it: it must be 0",
            value,
            kind as u64,
            0,
        ),
    }
}

// The number that stands in this field.
fn field_value(row: Row, field: Field) -> u64
    ensures { result ≡ field_value field (row_meant row) }
{
    match field {
        Field::Opcode => row.opcode as u64,
        Field::Object => row.object as u64,
        Field::Order => row.order as u64,
        Field::Kind => row.kind as u64,
        Field::Failure => row.failure as u64,
        Field::Register => row.register as u64,
        Field::Target => row.target as u64,
        Field::A => row.a,
        Field::B => row.b,
    }
}

// The field's name.
fn put_field(page: &mut Page, at: usize, opcode: u8, field: Field) -> usize
    ensures { page_of page.new result ≡ put_text (page_of page.old at) (bytes_of (field_name field opcode)) }
{
    match field {
        Field::Opcode => page::put(page, at, b"opcode"),
        Field::Object => put_object(page, at, opcode),
        Field::Order => page::put(page, at, b"order"),
        Field::Kind => page::put(page, at, b"change kind"),
        Field::Failure => page::put(page, at, b"failure order"),
        Field::Register => page::put(page, at, b"register"),
        Field::Target => page::put(page, at, b"jump target"),
        Field::A => page::put(page, at, b"operand a"),
        Field::B => page::put(page, at, b"operand b"),
    }
}

// A row names a cell, a plain cell, a thread, or none.
fn put_object(page: &mut Page, at: usize, opcode: u8) -> usize
    ensures { page_of page.new result ≡ put_text (page_of page.old at) (bytes_of (object_name opcode)) }
{
    let Ok(may) = reasons::may_be(Field::Object, opcode, 0) else {
        return page::put(page, at, b"the cell, plain cell or thread");
    };
    match may {
        May::AnyCell => page::put(page, at, b"cell"),
        May::AnyPlain => page::put(page, at, b"plain cell"),
        _ => page::put(page, at, b"thread"),
    }
}

// What it may be, where it is used. Orders that are picked out stand in the sentence, as document 01 numbers them.
fn put_may(page: &mut Page, at: usize, room: Room, may: May) -> usize
    ensures { page_of page.new result ≡ put_may (page_of page.old at) (room_meant room) may }
{
    match may {
        May::AnyOpcode => put_last(page, at, PLAIN_WRITE),
        May::AnyCell => put_present(page, at, room.cells),
        May::AnyPlain => put_present(page, at, room.plains),
        May::AnyThread => put_present(page, at, room.threads),
        May::AnyOrder => put_last(page, at, SEQ_CST),
        May::LoadOrder => page::put(page, at, b" that a load may have (0, 2 or 4)"),
        May::StoreOrder => page::put(page, at, b" that a store may have (0, 1 or 4)"),
        May::FenceOrder => page::put(page, at, b" that a fence may have (1 to 4)"),
        May::AnyKind => put_last(page, at, DECREMENT),
        May::AnyRegister => put_last(page, at, LAST_REGISTER),
        May::AnyTarget => page::fill(
            page,
            at,
            b": it may be up to #, the thread's end",
            room.rows as u64,
            0,
            0,
        ),
        May::OtherTarget => page::fill(
            page,
            at,
            b": it may be up to #, the thread's end, but not #: a jump to its own row never ends",
            room.rows as u64,
            room.row as u64,
            0,
        ),
    }
}

// They count from 0, to this one.
fn put_last(page: &mut Page, at: usize, last: u8) -> usize
    ensures { page_of page.new result ≡ put_last (page_of page.old at) last }
{
    page::fill(page, at, b": there are 0 to #", last as u64, 0, 0)
}

// How many of them the table has.
fn put_present(page: &mut Page, at: usize, count: usize) -> usize
    ensures { page_of page.new result ≡ put_present (page_of page.old at) count }
{
    page::fill(
        page,
        at,
        b": they count from 0, and the table has #",
        count as u64,
        0,
        0,
    )
}

// A field that the opcode, which is named, does not use.
fn put_unused(page: &mut Page, at: usize, opcode: u8, value: u64) -> usize
    ensures { page_of page.new result ≡ put_unused (page_of page.old at) value opcode }
{
    let to = page::fill(page, at, b" is #, and opcode # (", value, opcode as u64, 0);
    let to = put_nth(
        page,
        to,
        b"load,store,store of a register,change,fence,unsync_load,with_mut,yield,join,jump,jump if equal,jump if not equal,check,critical,explore_state,skip_branch,branch_spurious,plain read,plain write",
        opcode as usize,
    );
    page::put(page, to, b") does not use it: it must be 0")
}

// Puts the part of a list that stands past so many commas.
fn put_nth(page: &mut Page, at: usize, list: &[u8], n: usize) -> usize
    ensures { page_of page.new result ≡ put_text (page_of page.old at) (part_past n list.now) }
{
    let mut to = at;
    let mut past = 0;
    for i in 0..list.len() {
        if list[i] == b',' {
            past += 1;
        } else if past == n {
            to = page::put(page, to, &list[i..i + 1]);
        }
    }
    to
}
