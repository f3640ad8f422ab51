// Explores the program in a file, a text or a table, and prints what happened, the counts, the threads' summaries and the last
// execution; or writes the program as text, or its bytes.
#![tactic(auto)]

use condition::CONDITION_BYTES;
use options::{Options, Place, Stop, Task, WORD_ROOM, name_at};
use reader::{TABLE_BYTES, Untaken};
use source::ROOM;
use std::io;
use std::rt::{Env, Files};

mod file;
mod options;
mod run;
mod writing;

// One byte more than a condition has at most: what is longer is then none.
const CONDITION_ROOM: usize = CONDITION_BYTES + 1;

fn main(rt: HostRuntime) -> io::Result<()> {
    let errors = rt.stderr();
    match options::read(&rt, &errors) {
        Ok((options, file)) => answer(&rt, &errors, options, file),
        Err(Stop::Usage) => usage(&rt.stdout()),
        Err(Stop::Refused) => usage(&errors),
        Err(Stop::Failed(why)) => Err(why),
    }
}

// Writes how to call the program.
fn usage(to: &impl Print) -> io::Result<()> {
    to.write_all(
        b"usage: explore FILE [--branches B] [--operations L] [--executions N] [--bound K] [--not-exploring] [--all-rows]\n",
    )?;
    to.write_all(b"       explore FILE --to-text | --to-table | --to-condition\n")?;
    to.write_all(b"FILE is a text (docs/GRAMMAR.md) or a table (docs/FORMAT.md) of at most ")?;
    to.print(source::FILE_BYTES)?;
    to.write_all(b" bytes; beside a table, --condition FILE has the bytes of a final condition\n")
}

// Reads the file that is named, and does what is asked; where it cannot be read, one line has said why.
fn answer(
    rt: &(impl Files + Env + Print + Eprint),
    errors: &impl Print,
    options: Options,
    file: Place,
) -> io::Result<()> {
    let mut word = [0u8; WORD_ROOM];
    let name = name_at(rt, file, &mut word);
    let mut room = [0u8; ROOM];
    let Some(bytes) = file::read(rt, errors, name, &mut room)? else {
        return Ok(());
    };
    if bytes.len() == ROOM {
        return file::too_long(errors, name);
    }
    take(rt, errors, name, bytes, options)
}

// A table as it is; a text once it is read.
fn take(
    rt: &(impl Files + Env + Print + Eprint),
    errors: &impl Print,
    name: &[u8],
    bytes: &[u8],
    options: Options,
) -> io::Result<()> {
    if source::is_table(bytes) {
        return beside(rt, errors, bytes, options);
    }
    if options.condition.is_some() {
        return errors.write_all(
            b"explore: --condition is for a table; a text has its own, behind `finally`\n",
        );
    }
    let mut table = [0u8; TABLE_BYTES];
    let mut condition = [0u8; CONDITION_BYTES];
    match reader::read(bytes, &mut table, &mut condition) {
        Err(Untaken::NoRoom) => Ok(()),
        Err(Untaken::Refused(line, column)) => tell::print_refusal(rt, name, bytes, line, column),
        Ok(taken) => perform(
            rt,
            token::part(&table, 0, taken.table),
            token::part(&condition, 0, taken.condition),
            options,
        ),
    }
}

// A table, with the condition in the file that is named for it, if one is.
fn beside(
    rt: &(impl Files + Env + Print + Eprint),
    errors: &impl Print,
    table: &[u8],
    options: Options,
) -> io::Result<()> {
    let Some(place) = options.condition else {
        return perform(rt, table, b"", options);
    };
    let mut word = [0u8; WORD_ROOM];
    let name = name_at(rt, place, &mut word);
    let mut room = [0u8; CONDITION_ROOM];
    let Some(condition) = file::read(rt, errors, name, &mut room)? else {
        return Ok(());
    };
    perform(rt, table, condition, options)
}

// Does what is asked with the program.
fn perform(
    rt: &(impl Print + Eprint),
    table: &[u8],
    condition: &[u8],
    options: Options,
) -> io::Result<()> {
    let settings = options.settings;
    match options.task {
        Task::Explore => run::run(rt, table, condition, settings, options.whole),
        Task::Write(form) => writing::write(rt, table, condition, settings, form),
    }
}
