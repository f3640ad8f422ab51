// Explores the text or table on standard input with the largest settings, and prints of it what the program explore prints. It needs
// neither words nor files, so it runs unproved too, within seconds (examples/first).
#![tactic(auto)]

ghost use Rattle.std.specs.Prelude.{◌≤◌, length};

use condition::CONDITION_BYTES;
use reader::{TABLE_BYTES, Untaken};
use settings::{MAX_BRANCHES, MAX_EXECUTIONS, MAX_OPERATIONS, PATH_BYTES, Settings, TRACE_BYTES};
use source::{FILE_BYTES, ROOM};
use std::io;
use std::io::Read;

// A read that fails counts as the input's end: what there is, is then refused.
fn main(rt: HostRuntime) -> io::Result<()> {
    let mut bytes = [0u8; ROOM];
    let n = read_full(&mut rt.stdin(), &mut bytes);
    if n == ROOM {
        return eprintln!(rt;
            "show: the input has more than {FILE_BYTES} bytes, which no text or table may have"
        );
    }
    take(&rt, &bytes[..n])
}

// Reads until the buffer is full, the input ends or a read fails; answers how many bytes it put at the start.
// A read may bring any number of bytes, so there is no range for a `for`.
fn read_full<R: Read>(input: &mut R, buffer: &mut [u8]) -> usize
    ensures { result ≤ length buffer.new }
{
    let mut done = 0;
    while done < buffer.len() {
        let n = input.read(&mut buffer[done..]).unwrap_or(0);
        if n == 0 {
            break;
        }
        done += n;
    }
    done
}

// Shows a table, or reads a text and shows that.
fn take(rt: &impl Print, bytes: &[u8]) -> io::Result<()> {
    if source::is_table(bytes) {
        return show(rt, bytes, &bytes[..0]);
    }
    let mut table = [0u8; TABLE_BYTES];
    let mut condition = [0u8; CONDITION_BYTES];
    match reader::read(bytes, &mut table, &mut condition) {
        Err(Untaken::NoRoom) => Ok(()),
        Err(Untaken::Refused(line, column)) => tell::print_refusal(rt, b"", bytes, line, column),
        Ok(taken) => show(
            rt,
            token::part(&table, 0, taken.table),
            token::part(&condition, 0, taken.condition),
        ),
    }
}

// Explores and prints.
fn show(rt: &impl Print, table: &[u8], condition: &[u8]) -> io::Result<()> {
    let mut path = [0u8; PATH_BYTES];
    let mut trace = [0u8; TRACE_BYTES];
    let report = explorer::explore(table, condition, &mut path, &mut trace, settings());
    tell::print_report(rt, table, condition, &trace, settings(), false, report)
}

// The largest limits, no bound, exploring.
fn settings() -> Settings {
    Settings {
        branches: MAX_BRANCHES,
        operations: MAX_OPERATIONS,
        executions: MAX_EXECUTIONS,
        bound: None,
        exploring: true,
    }
}
