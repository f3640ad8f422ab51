// The explorer: any bytes as a table, any settings and any buffers get an answer. After loom's model::Builder::check.
#![tactic(auto)]

ghost use Rattle.std.specs.Prelude.{◌≡◌};
ghost use Rattle.rules.specs.Explored as rules;
ghost use Rattle.settings.specs.Given.{settings_of};
ghost use Rattle.explorer.specs.Explores.{explored_of};

use ending::threads_of;
use event::NOWHERE;
use report::{Answer, Report};
use settings::{Settings, holds_exactly, settings_fine};
use table::BadTable;

mod run;

// Explores the program, under a final condition; no bytes are no condition. A refusal leaves both buffers as they are; a run leaves
// the path and the last execution's trace.
pub fn explore(
    table: &[u8],
    condition: &[u8],
    path: &mut [u8],
    trace: &mut [u8],
    settings: Settings,
) -> Report
    ensures { explored_of result path.new trace.new ≡ rules.explored table.now condition.now (settings_of settings) path.old trace.old }
{
    if !settings_fine(settings) {
        return report::refused(Answer::BadSettings);
    }
    if !holds_exactly(path.len(), settings.branches) {
        return report::refused(Answer::BadPath);
    }
    if !holds_exactly(trace.len(), settings.operations) {
        return report::refused(Answer::BadTrace);
    }
    match table::judge(table) {
        Ok(()) => {
            if !condition::is_condition(condition, threads_of(table)) {
                return report::refused(Answer::BadTable {
                    thread: NOWHERE,
                    row: NOWHERE,
                });
            }
            run::run(table, condition, path, trace, settings)
        }
        Err(BadTable::Header) => report::refused(Answer::BadTable {
            thread: NOWHERE,
            row: NOWHERE,
        }),
        Err(BadTable::Row { thread, row }) => { report::refused(Answer::BadTable { thread, row }) }
    }
}
