// Answer 0: nothing failed, and what that covers.
#![tactic(auto)]

ghost use Rattle.std.specs.Prelude.{◌≡◌};
ghost use Rattle.rules.specs.Table.{max_cells};
ghost use Rattle.page.specs.Pages.{page_of};
ghost use Rattle.path.specs.Bounds.{bound_of};
ghost use Rattle.settings.specs.Given.{settings_of};
ghost use Rattle.coverage.specs.Says.{put_executions, put_first, put_off, put_exhausted, put_explored, put_tried, put_bounded, put_stores};
ghost use Rattle.coverage.specs.Says.{put_old_stores, put_covered};

use layout::{MAX_ATOMIC_HISTORY, MAX_CELLS};
use page::Page;
use search::RowAt;
use settings::Settings;

mod search;

// Stores that a cell keeps, of which its start value is the first.
const KEPT: u64 = MAX_ATOMIC_HISTORY as u64;

// Says that nothing failed, within what, and what was left out.
pub fn put(page: &mut Page, at: usize, table: &[u8], settings: Settings, begun: u64) -> usize
    ensures { page_of page.new result ≡ put_covered (page_of page.old at) table.now (settings_of settings) begun }
{
    let bound = settings.bound;
    let to = put_tried(page, at, table, settings, begun);
    let to = put_bounded(page, to, bound);
    put_old_stores(page, to, table)
}

// What was tried, by whether exploring was on at the start.
fn put_tried(page: &mut Page, at: usize, table: &[u8], settings: Settings, begun: u64) -> usize
    ensures { page_of page.new result ≡ put_tried (page_of page.old at) table.now (settings_of settings) begun }
{
    let bound = settings.bound;
    if settings.exploring {
        return put_explored(page, at, bound, search::first_switch(table, false), begun);
    }
    put_off(page, at, search::first_switch(table, true), begun)
}

// The first line, with what is said before the count of executions.
fn put_first(page: &mut Page, at: usize, what: &[u8], n: u64, begun: u64) -> usize
    ensures { page_of page.new result ≡ put_first (page_of page.old at) what.now n begun }
{
    let to = page::fill(page, at, what, n, 0, 0);
    let to = put_executions(page, to, begun);
    page::put(page, to, b": no check failed, no race\n")
}

// How many executions were begun.
fn put_executions(page: &mut Page, at: usize, begun: u64) -> usize
    ensures { page_of page.new result ≡ put_executions (page_of page.old at) begun }
{
    if begun == 1 {
        return page::put(page, at, b"1 execution");
    }
    page::fill(page, at, b"# executions", begun, 0, 0)
}

// Exploring was off at the start.
fn put_off(page: &mut Page, at: usize, on: Option<RowAt>, begun: u64) -> usize
    ensures { page_of page.new result ≡ put_off (page_of page.old at) on begun }
{
    let to = put_first(
        page,
        at,
        b"answer 0: not explored, by --not-exploring; ended after ",
        0,
        begun,
    );
    let Some(site) = on else {
        return page::put(
            page,
            to,
            b"covered: one execution; no other order of the threads and no other load was tried\n",
        );
    };
    page::fill(
        page,
        to,
        b"covered: what is varied while exploring is on, by `explore_state` (first at thread #, row #); nothing else\n",
        site.thread as u64,
        site.row as u64,
        0,
    )
}

// Exploring was on at the start; the program may switch it off.
fn put_explored(
    page: &mut Page,
    at: usize,
    bound: Option<u8>,
    switched: Option<RowAt>,
    begun: u64,
) -> usize
    ensures { page_of page.new result ≡ put_explored (page_of page.old at) (bound_of bound) switched begun }
{
    let Some(site) = switched else {
        return put_exhausted(page, at, bound, begun);
    };
    let to = put_first(
        page,
        at,
        b"answer 0: exhausted in part, since the program switches exploring off, after ",
        0,
        begun,
    );
    page::fill(
        page,
        to,
        b"covered: what is varied while exploring is on; it goes off at thread #, row #, and then nothing else is tried\n",
        site.thread as u64,
        site.row as u64,
        0,
    )
}

// Exploring was on throughout.
fn put_exhausted(page: &mut Page, at: usize, bound: Option<u8>, begun: u64) -> usize
    ensures { page_of page.new result ≡ put_exhausted (page_of page.old at) (bound_of bound) begun }
{
    let Some(most) = bound else {
        let to = put_first(page, at, b"answer 0: exhausted after ", 0, begun);
        return page::put(
            page,
            to,
            b"covered: every choice that the rules opened, of threads and of the stores that a load may read; some orders they never open (docs/COVERAGE.md, 1)\n",
        );
    };
    put_first(
        page,
        at,
        b"answer 0: exhausted within --bound # after ",
        most as u64,
        begun,
    )
}

// What a bound leaves. A branch with as many preemptions as the bound allows tries no other thread.
fn put_bounded(page: &mut Page, at: usize, bound: Option<u8>) -> usize
    ensures { page_of page.new result ≡ put_bounded (page_of page.old at) (bound_of bound) }
{
    let Some(most) = bound else {
        return at;
    };
    if most == 0 {
        return page::put(
            page,
            at,
            b"covered: loads alone (--bound 0): every store that each may read, in one order of the threads; no other order\n",
        );
    }
    page::fill(
        page,
        at,
        b"covered: orders in which threads that could go on are made to wait at most # times (--bound #), perhaps not all\n",
        most as u64,
        most as u64,
        0,
    )
}

// Warns of each cell that has more stores than are kept.
fn put_old_stores(page: &mut Page, at: usize, table: &[u8]) -> usize
    ensures { page_of page.new result ≡ put_old_stores (page_of page.old at) table.now max_cells 0 }
{
    let mut to = at;
    for cell in 0..MAX_CELLS as u64 {
        to = put_stores(page, to, table, cell);
    }
    to
}

// Warns of this one, where it has. The start value counts as a store that is kept.
fn put_stores(page: &mut Page, at: usize, table: &[u8], cell: u64) -> usize
    ensures { page_of page.new result ≡ put_stores (page_of page.old at) table.now cell }
{
    let stores = search::stores(table, cell);
    if stores < KEPT {
        return at;
    }
    page::fill(
        page,
        at,
        b"not covered: # rows store to cell #, which keeps its # newest stores, the start value counted: a failure by an older one\n",
        stores,
        cell,
        KEPT,
    )
}
