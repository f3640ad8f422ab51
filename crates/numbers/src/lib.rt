// A report as numbers alone, for entries that no struct crosses.
#![tactic(auto)]

ghost use Rattle.std.specs.Prelude.{◌≡◌, length};
ghost use Rattle.report.specs.Answers.{report_of, summary_of, summaries_of};
ghost use Rattle.numbers.specs.Numbers.{numbers_of, four_of, summary_numbers};

use layout::{MAX_THREADS, long8};
use report::{Report, Summary};

pub mod places;

// How many numbers a thread's summary has, a report before the summaries, and with those of the five threads.
pub const SUMMARY: usize = places::VERSION + 1;

pub const BEFORE_SUMMARIES: usize = places::OTHER + 1;

pub const REPORT_NUMBERS: usize = BEFORE_SUMMARIES + MAX_THREADS * SUMMARY;

// The report as numbers, each at its place (`places`): the answer, the counts, the place at fault, the race, and each thread's summary.
pub fn of_report(done: Report) -> [u64; REPORT_NUMBERS]
    ensures { result ≡ numbers_of (report_of done) }
{
    let answer = done.answer;
    let site = report::at_fault(answer);
    let threads = done.threads;
    let t = summaries(threads);
    [
        report::number(answer),
        done.begun,
        done.opened,
        done.still_open,
        done.rows,
        site.thread,
        site.row,
        long8(report::race_kind(answer)),
        report::other_thread(answer),
        t[0],
        t[1],
        t[2],
        t[3],
        t[4],
        t[5],
        t[6],
        t[7],
        t[8],
        t[9],
        t[10],
        t[11],
        t[12],
        t[13],
        t[14],
        t[15],
        t[16],
        t[17],
        t[18],
        t[19],
    ]
}

// Those of the five threads.
fn summaries(threads: [Summary; MAX_THREADS]) -> [u64; MAX_THREADS * SUMMARY]
    ensures { (result ≡ summary_numbers (summaries_of threads)) × (length result ≡ 20) }
{
    let a = summary(threads[0]);
    let b = summary(threads[1]);
    let c = summary(threads[2]);
    let d = summary(threads[3]);
    let e = summary(threads[4]);
    [
        a[0], a[1], a[2], a[3], b[0], b[1], b[2], b[3], c[0], c[1], c[2], c[3], d[0], d[1], d[2],
        d[3], e[0], e[1], e[2], e[3],
    ]
}

// One thread's: its state, rows begun, yields and version.
fn summary(thread: Summary) -> [u64; SUMMARY]
    ensures { result ≡ four_of (summary_of thread) }
{
    [
        thread.state as u64,
        thread.rows as u64,
        thread.yields as u64,
        thread.version as u64,
    ]
}
