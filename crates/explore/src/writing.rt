// A program written: as text, as its table, or its condition.
use crate::options::Form;
use crate::run;
use settings::Settings;
use source::FILE_BYTES;
use std::io;
use writer::Unwritten;

// Writes it, unless it is refused: then what a run says of it is said, which is why.
pub fn write(
    rt: &(impl Print + Eprint),
    table: &[u8],
    condition: &[u8],
    settings: Settings,
    form: Form,
) -> io::Result<()> {
    let mut text = [0u8; FILE_BYTES];
    match writer::write(table, condition, &mut text) {
        Err(Unwritten::Unfit) => run::run(rt, table, condition, settings, false),
        Err(Unwritten::Short(needed)) => too_long(rt, needed),
        Ok(n) => write_fit(rt, token::part(&text, 0, n), table, condition, form),
    }
}

// No text is that long; should there be one, it is not cut.
fn too_long(rt: &impl Eprint, needed: usize) -> io::Result<()> {
    eprintln!(rt; "explore: the text would have {needed} bytes")
}

// Writes what is asked for of a program that is accepted.
fn write_fit(
    rt: &(impl Print + Eprint),
    text: &[u8],
    table: &[u8],
    condition: &[u8],
    form: Form,
) -> io::Result<()> {
    match form {
        Form::Text => rt.write_all(text),
        Form::Table => {
            rt.write_all(table)?;
            if !condition.is_empty() {
                eprintln!(rt;
                    "note: a table holds no condition, so it is left out; --to-condition writes its bytes"
                )?;
            }
            Ok(())
        }
        Form::Condition => rt.write_all(condition),
    }
}
