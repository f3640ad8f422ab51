// Answer 14: a race, by the access that met it and the one before it: document 01's nine kinds, and three of plain cells.
#![tactic(auto)]

ghost use Rattle.std.specs.Prelude.{◌≡◌, ◌+◌, ◌<◌, ◌^◌, IfSome};
ghost use Rattle.rules.specs.Token.{bytes_of};
ghost use Rattle.page.specs.Pages.{page_of, put_text};
ghost use Rattle.race.specs.Races.{cell_at, race_said, access_name, put_where, put_met, put_step, put_before, put_race};

use decode::Op;
use last_access::{AccessKind, CellAccess};
use layout::races;
use page::Page;
use report::AtFault;

// What stands for the cell in the line where the row at fault names none.
const NO_CELL: u64 = 255;

// Names both accesses, the other one by its step.
pub fn put(
    page: &mut Page,
    at: usize,
    table: &[u8],
    trace: &[u8],
    site: AtFault,
    kind: u8,
    other: u64,
) -> usize
    ensures { page_of page.new result ≡ put_race (page_of page.old at) table.now trace.now site.thread site.row kind other }
{
    let cell = cell_at(table, site);
    let (met, against) = race_said(kind);
    let to = put_met(page, at, site, CellAccess { cell, kind: met });
    let before = CellAccess {
        cell,
        kind: against,
    };
    put_before(page, to, table, trace, other, before)
}

// The access that met the race, of the row at fault.
fn put_met(page: &mut Page, at: usize, site: AtFault, access: CellAccess) -> usize
    ensures { page_of page.new result ≡ put_met (page_of page.old at) access.cell access.kind site.thread site.row }
{
    let kind = access.kind;
    let to = put_where(page, at, access);
    let to = put_kind(page, to, kind);
    page::fill(
        page,
        to,
        b" of thread #, row #, against ",
        site.thread,
        site.row,
        0,
    )
}

// The access before it: the other thread's last of this kind.
fn put_before(
    page: &mut Page,
    at: usize,
    table: &[u8],
    trace: &[u8],
    other: u64,
    access: CellAccess,
) -> usize
    ensures { page_of page.new result ≡ put_before (page_of page.old at) table.now trace.now access.cell access.kind other }
{
    let kind = access.kind;
    let to = put_kind(page, at, kind);
    let step = last_access::last(table, trace, other, access, steps::count(trace));
    put_step(page, to, trace, other, step)
}

// That it is a race on a cell, or on a plain cell.
fn put_where(page: &mut Page, at: usize, access: CellAccess) -> usize
    ensures { page_of page.new result ≡ put_where (page_of page.old at) access.kind access.cell }
{
    let kind = access.kind;
    match kind {
        AccessKind::PlainRead | AccessKind::PlainWrite => page::fill(
            page,
            at,
            b"answer 14: failed: race on plain cell #: ",
            access.cell,
            0,
            0,
        ),
        _ => page::fill(
            page,
            at,
            b"answer 14: failed: race on cell #: ",
            access.cell,
            0,
            0,
        ),
    }
}

// The other thread, and its row and step where the trace has them.
fn put_step(page: &mut Page, at: usize, trace: &[u8], other: u64, step: Option<usize>) -> usize
    requires { IfSome step (λ i. i + 1 < 2 ^ 64) }
    ensures { page_of page.new result ≡ put_step (page_of page.old at) trace.now other step }
{
    let Some(i) = step else {
        return page::fill(page, at, b" of thread #\n", other, 0, 0);
    };
    page::fill(
        page,
        at,
        b" of thread #, row # (step #)\n",
        other,
        steps::row(trace, i) as u64,
        i as u64 + 1,
    )
}

// The cell, or the plain cell, of the row at fault.
fn cell_at(table: &[u8], site: AtFault) -> u64
    ensures { result ≡ cell_at table.now site.thread site.row }
{
    let Some(op) = steps::row_of(table, (site.thread % 256) as u8, (site.row % 256) as u8) else {
        return NO_CELL;
    };
    last_access::cell_of(op).unwrap_or(NO_CELL)
}

// The access that met the race, and the one before it that it races with. What is no race kind has the exclusive changes.
fn race_said(kind: u8) -> (AccessKind, AccessKind)
    ensures { result ≡ race_said kind }
{
    match kind {
        races::LOAD_AGAINST_MUT => (AccessKind::Load, AccessKind::Exclusive),
        races::UNSYNC_LOAD_AGAINST_MUT => (AccessKind::UnsyncLoad, AccessKind::Exclusive),
        races::UNSYNC_LOAD_AGAINST_STORE => (AccessKind::UnsyncLoad, AccessKind::Store),
        races::STORE_AGAINST_MUT => (AccessKind::Store, AccessKind::Exclusive),
        races::STORE_AGAINST_UNSYNC_LOAD => (AccessKind::Store, AccessKind::UnsyncLoad),
        races::MUT_AGAINST_LOAD => (AccessKind::Exclusive, AccessKind::Load),
        races::MUT_AGAINST_UNSYNC_LOAD => (AccessKind::Exclusive, AccessKind::UnsyncLoad),
        races::MUT_AGAINST_STORE => (AccessKind::Exclusive, AccessKind::Store),
        races::PLAIN_READ_AGAINST_WRITE => (AccessKind::PlainRead, AccessKind::PlainWrite),
        races::PLAIN_WRITE_AGAINST_READ => (AccessKind::PlainWrite, AccessKind::PlainRead),
        races::PLAIN_WRITE_AGAINST_WRITE => (AccessKind::PlainWrite, AccessKind::PlainWrite),
        _ => (AccessKind::Exclusive, AccessKind::Exclusive),
    }
}

fn put_kind(page: &mut Page, at: usize, kind: AccessKind) -> usize
    ensures { page_of page.new result ≡ put_text (page_of page.old at) (bytes_of (access_name kind)) }
{
    match kind {
        AccessKind::Load => page::put(page, at, b"the load"),
        AccessKind::UnsyncLoad => page::put(page, at, b"the unsynchronised load"),
        AccessKind::Store => page::put(page, at, b"the store"),
        AccessKind::Exclusive => page::put(page, at, b"the exclusive change"),
        AccessKind::PlainRead => page::put(page, at, b"the plain read"),
        AccessKind::PlainWrite => page::put(page, at, b"the plain write"),
    }
}
