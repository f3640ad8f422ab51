// The caller's list of summaries, document 01's thread records.
#![tactic(auto)]

ghost use Rattle.std.specs.Prelude.{◌≡◌, cond, ◌&&◌, eqb, length};

use layout::MAX_THREADS;
use report::Summary;

// Copies the five summaries of a run into the caller's list, if it holds exactly five.
pub fn copy_into(list: &mut [Summary], ran: bool, threads: [Summary; MAX_THREADS])
    ensures { list.new ≡ cond (ran && eqb (length list.old) 5) threads list.old }
{
    if !(ran & (list.len() == MAX_THREADS)) {
        return;
    }
    // Place by place: a rule of the project.
    list[0] = threads[0];
    list[1] = threads[1];
    list[2] = threads[2];
    list[3] = threads[3];
    list[4] = threads[4];
}
