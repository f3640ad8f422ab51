// Why a table or a condition is refused: which field of the header, or of the first bad row, or which byte of the condition is wrong,
// and what it may be.
#![tactic(auto)]

ghost use Rattle.std.specs.Prelude.{◌≡◌};
ghost use Rattle.page.specs.Pages.{page_of};
ghost use Rattle.refusal.specs.Refusals.{put_refusal};

use event::NO_PLACE;
use page::Page;
use report::AtFault;

mod header;

// Puts it, in one line: what is wrong with this row; or, where no row is named, with the header or the length; or else with the
// condition, which is judged behind the table.
pub fn put(page: &mut Page, at: usize, table: &[u8], condition: &[u8], site: AtFault) -> usize
    ensures { page_of page.new result ≡ put_refusal (page_of page.old at) table.now condition.now site.thread site.row }
{
    if site.thread != NO_PLACE {
        return bad_row::put(
            page,
            at,
            table,
            (site.thread % 256) as u8,
            (site.row % 256) as u8,
        );
    }
    if table::judge(table).is_ok() {
        return bad_condition::put(page, at, table, condition);
    }
    header::put(page, at, table)
}
