// The second entry: the five summaries go into the caller's list too.
#![tactic(auto)]

ghost use Rattle.std.specs.Prelude.{◌≡◌, not, List, length};
ghost use Rattle.rules.specs.Explored as rules;
ghost use Rattle.report.specs.Answers.{answer_number, summaries_of};
ghost use Rattle.settings.specs.Given.{settings_of};
ghost use Rattle.explorer.specs.Explores.{explored_of};
ghost use Rattle.into.specs.Listed.{explored_into_of, miscounts};

use layout::MAX_THREADS;
use report::{Answer, Report, Summary};
use settings::Settings;

// Explores the program under a final condition, and copies the five summaries into the caller's list, which must hold exactly five. A refusal leaves
// both buffers and the list as they are.
pub fn explore_into(
    table: &[u8],
    condition: &[u8],
    path: &mut [u8],
    trace: &mut [u8],
    list: &mut [Summary],
    settings: Settings,
) -> Report
    ensures { explored_into_of result path.new trace.new list.new ≡ rules.explored_into table.now condition.now (settings_of settings) path.old trace.old (summaries_of list.old) }
{
    let report = explore_counted(table, condition, path, trace, settings, list.len());
    list::copy_into(list, ran(report), summaries_of(report));
    report
}

// The same for a list of so many records, without the copy; only five will do. The length is judged with the trace buffer's, so
// after the settings and the path buffer.
pub fn explore_counted(
    table: &[u8],
    condition: &[u8],
    path: &mut [u8],
    trace: &mut [u8],
    settings: Settings,
    listed: usize,
) -> Report
    ensures { (list : List rules.Summary) → length list ≡ listed → explored_of result path.new trace.new ≡ (rules.explored_into table.now condition.now (settings_of settings) path.old trace.old list).explored }
{
    if miscounted(settings, path.len(), listed) {
        return report::refused(Answer::BadTrace);
    }
    explorer::explore(table, condition, path, trace, settings)
}

// Whether the list's length is wrong, and neither the settings nor the path buffer is.
fn miscounted(settings: Settings, bytes: usize, listed: usize) -> bool
    ensures { result ≡ miscounts (settings_of settings) bytes listed }
{
    let counted = listed == MAX_THREADS;
    let fine = settings::settings_fine(settings);
    let held = settings::holds_exactly(bytes, settings.branches);
    !(counted | !fine | !held)
}

// Whether there was a run: the answer is no refusal.
fn ran(report: Report) -> bool
    ensures { result ≡ not (rules.is_refusal (answer_number report.answer)) }
{
    let answer = report.answer;
    let number = report::number(answer);
    !report::is_refusal(number)
}

fn summaries_of(report: Report) -> [Summary; MAX_THREADS]
    ensures { result ≡ report.threads }
{
    report.threads
}
