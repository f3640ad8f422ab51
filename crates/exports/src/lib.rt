// The entries for Rust and C: numbers and slices only, so that no struct's layout crosses.
#![tactic(auto)]

ghost use Rattle.std.specs.Prelude.{◌≡◌};
ghost use Rattle.exports.specs.Entry.{no_condition, entered, left_behind};

use numbers::REPORT_NUMBERS;
use settings::{MAX_BOUND, Settings, bound_of};

pub mod text;

// What is answered where an argument is out of range; no run answers it.
pub const NO_RUN: u64 = 255;

// The number that stands for no bound.
const NO_BOUND: u64 = MAX_BOUND + 1;

// The settings as a caller gives them: numbers alone.
#[derive(Clone, Copy)]
struct SettingNumbers {
    branches: u64,
    operations: u64,
    executions: u64,
    bound: u64,
    exploring: u64,
}

// Explores without a final condition; `bound` is 0 to 255, or 256 for none, `exploring` 0 or 1, and `report` takes exactly 29
// numbers. Answers the report's first number; another bound, exploring or report length gives 255, and nothing is written.
#[unsafe(no_mangle)]
pub extern "C" fn chjirvollu_explore(
    table: &[u8],
    branches: u64,
    operations: u64,
    executions: u64,
    bound: u64,
    exploring: u64,
    path: &mut [u8],
    trace: &mut [u8],
    report: &mut [u64],
) -> u64
    ensures { left_behind result path.new trace.new report.new ≡ entered table.now no_condition branches operations executions bound exploring path.old trace.old report.old }
{
    let condition = &table[..0];
    let given = SettingNumbers {
        branches,
        operations,
        executions,
        bound,
        exploring,
    };
    enter(table, condition, path, trace, report, given)
}

// The same under a final condition, whose bytes follow the table's. No bytes are no condition.
#[unsafe(no_mangle)]
pub extern "C" fn chjirvollu_explore_condition(
    table: &[u8],
    condition: &[u8],
    branches: u64,
    operations: u64,
    executions: u64,
    bound: u64,
    exploring: u64,
    path: &mut [u8],
    trace: &mut [u8],
    report: &mut [u64],
) -> u64
    ensures { left_behind result path.new trace.new report.new ≡ entered table.now condition.now branches operations executions bound exploring path.old trace.old report.old }
{
    let given = SettingNumbers {
        branches,
        operations,
        executions,
        bound,
        exploring,
    };
    enter(table, condition, path, trace, report, given)
}

// What both entries do.
fn enter(
    table: &[u8],
    condition: &[u8],
    path: &mut [u8],
    trace: &mut [u8],
    report: &mut [u64],
    given: SettingNumbers,
) -> u64
    ensures { left_behind result path.new trace.new report.new ≡ entered table.now condition.now given.branches given.operations given.executions given.bound given.exploring path.old trace.old report.old }
{
    if NO_BOUND < given.bound {
        return NO_RUN;
    }
    if 1 < given.exploring {
        return NO_RUN;
    }
    if report.len() != REPORT_NUMBERS {
        return NO_RUN;
    }
    let bound = bound_of(given.bound);
    let settings = Settings {
        branches: given.branches,
        operations: given.operations,
        executions: given.executions,
        bound,
        exploring: given.exploring == 1,
    };
    let done = explorer::explore(table, condition, path, trace, settings);
    let answer = done.answer;
    let number = report::number(answer);
    let all = numbers::of_report(done);
    report.copy_from_slice(&all);
    number
}
