// The words of the command line: the file's name, what is asked of it, and the settings.
use settings::{MAX_BOUND, MAX_BRANCHES, MAX_EXECUTIONS, MAX_OPERATIONS, Settings, bound_of};
use std::env::FillError;
use std::io;
use std::rt::Env;

// The longest word, and the buffer's size.
pub const WORD_ROOM: usize = 4096;

// A setting that takes a number.
#[derive(Clone, Copy)]
enum Limit {
    Branches,
    Operations,
    Executions,
    Bound,
}

// What an option takes as the next word.
#[derive(Clone, Copy)]
enum Awaited {
    Number(Limit),
    ConditionFile,
}

// How the program in the file is written: as text, its table, or its condition.
#[derive(Clone, Copy)]
pub enum Form {
    Text,
    Table,
    Condition,
}

// What is asked of the program in the file.
#[derive(Clone, Copy)]
pub enum Task {
    Explore,
    Write(Form),
}

// Where a file's name stands: in this word, `behind` so many bytes of it.
#[derive(Clone, Copy)]
pub struct Place {
    pub word: usize,
    pub behind: usize,
}

// What was asked so far.
#[derive(Clone, Copy)]
pub struct Options {
    file: Option<Place>,
    awaited: Option<Awaited>,
    pub condition: Option<Place>,
    pub task: Task,
    pub settings: Settings,
    pub whole: bool,
}

// Why there is nothing to do: the usage is asked for; a word is refused, which has been named on standard error; or that could not be
// written.
#[derive(Drop)]
pub enum Stop {
    Usage,
    Refused,
    Failed(io::Error),
}

impl From<io::Error> for Stop {
    fn from(why: io::Error) -> Self {
        Stop::Failed(why)
    }
}

impl Limit {
    // The option's name, and the least and the most that it takes.
    fn range(self) -> (&'static [u8], u64, u64) {
        match self {
            Limit::Branches => (b"--branches", 1, MAX_BRANCHES),
            Limit::Operations => (b"--operations", 1, MAX_OPERATIONS),
            Limit::Executions => (b"--executions", 1, MAX_EXECUTIONS),
            Limit::Bound => (b"--bound", 0, MAX_BOUND),
        }
    }

    // Sets it.
    fn set(self, settings: &mut Settings, n: u64) {
        match self {
            Limit::Branches => settings.branches = n,
            Limit::Operations => settings.operations = n,
            Limit::Executions => settings.executions = n,
            Limit::Bound => settings.bound = bound_of(n),
        }
    }
}

impl Options {
    // Nothing is asked: the largest limits, no bound, exploring, long executions shortened.
    pub fn new() -> Self {
        let settings = Settings {
            branches: MAX_BRANCHES,
            operations: MAX_OPERATIONS,
            executions: MAX_EXECUTIONS,
            bound: None,
            exploring: true,
        };
        Options {
            file: None,
            awaited: None,
            condition: None,
            task: Task::Explore,
            settings,
            whole: false,
        }
    }

    // Takes a word: what is awaited, an option, or the file's name.
    fn take(&mut self, errors: &impl Print, word: &[u8], at: usize) -> Result<(), Stop> {
        let place = Place {
            word: at,
            behind: 0,
        };
        if let Some(awaited) = self.awaited {
            return self.take_awaited(errors, awaited, word, place);
        }
        if word.starts_with(b"-") {
            return self.take_option(errors, word, at);
        }
        if self.file.is_some() {
            return refuse(errors, b"more than one FILE: ", word);
        }
        self.file = Some(place);
        Ok(())
    }

    // An option, which may have what it takes behind a `=`.
    fn take_option(&mut self, errors: &impl Print, word: &[u8], at: usize) -> Result<(), Stop> {
        let Some(end) = word.iter().position(|byte| *byte == b'=') else {
            return self.take_name(errors, word);
        };
        self.take_name(errors, &word[..end])?;
        let Some(awaited) = self.awaited else {
            return refuse(
                errors,
                b"only an option that takes something has a `=`",
                b"",
            );
        };
        let place = Place {
            word: at,
            behind: end + 1,
        };
        self.take_awaited(errors, awaited, &word[end + 1..], place)
    }

    // The option of this name.
    fn take_name(&mut self, errors: &impl Print, word: &[u8]) -> Result<(), Stop> {
        match word {
            b"--help" | b"-h" => return Err(Stop::Usage),
            b"--not-exploring" => self.settings.exploring = false,
            b"--all-rows" => self.whole = true,
            b"--to-text" => self.task = Task::Write(Form::Text),
            b"--to-table" => self.task = Task::Write(Form::Table),
            b"--to-condition" => self.task = Task::Write(Form::Condition),
            b"--branches" => self.awaited = Some(Awaited::Number(Limit::Branches)),
            b"--operations" => self.awaited = Some(Awaited::Number(Limit::Operations)),
            b"--executions" => self.awaited = Some(Awaited::Number(Limit::Executions)),
            b"--bound" => self.awaited = Some(Awaited::Number(Limit::Bound)),
            b"--condition" => self.awaited = Some(Awaited::ConditionFile),
            _ => return refuse(errors, b"unknown option ", word),
        }
        Ok(())
    }

    // What an option takes, which stands at this place.
    fn take_awaited(
        &mut self,
        errors: &impl Print,
        awaited: Awaited,
        word: &[u8],
        place: Place,
    ) -> Result<(), Stop> {
        match awaited {
            Awaited::ConditionFile => self.condition = Some(place),
            Awaited::Number(limit) => {
                let (_, least, most) = limit.range();
                let Some(n) = decimal::number_between(word, least, most) else {
                    return missing(errors, awaited);
                };
                limit.set(&mut self.settings, n);
            }
        }
        self.awaited = None;
        Ok(())
    }

    // Where the file's name stands, if nothing is missing.
    fn complete(&self, errors: &impl Print) -> Result<Place, Stop> {
        if let Some(awaited) = self.awaited {
            return missing(errors, awaited);
        }
        match self.file {
            Some(place) => Ok(place),
            None => refuse(errors, b"FILE is missing", b""),
        }
    }
}

// Reads every word behind the program's name: what is asked, and where the file's name stands.
pub fn read(rt: &impl Env, errors: &impl Print) -> Result<(Options, Place), Stop> {
    let mut options = Options::new();
    for i in 1..usize::MAX {
        let mut word = [0u8; WORD_ROOM];
        match rt.arg(i, &mut word) {
            Ok(length) => options.take(errors, &word[..length], i)?,
            Err(FillError::TooLong) => return refuse(errors, b"an argument is too long", b""),
            Err(FillError::NotPresent) => break,
        }
    }
    let file = options.complete(errors)?;
    Ok((options, file))
}

// The name that stands at a place; nothing where there is none.
pub fn name_at<'a>(rt: &impl Env, place: Place, room: &'a mut [u8; WORD_ROOM]) -> &'a [u8] {
    let length = rt.arg(place.word, room).unwrap_or(0);
    token::part(room, place.behind, length)
}

// Names what is wrong, in one line on standard error, with the word that it is about.
fn refuse<T>(errors: &impl Print, what: &[u8], word: &[u8]) -> Result<T, Stop> {
    errors.write_all(b"explore: ")?;
    errors.write_all(what)?;
    errors.write_all(word)?;
    errors.write_all(b"\n")?;
    Err(Stop::Refused)
}

// What an option takes is missing; or it is no number, or one out of range.
fn missing<T>(errors: &impl Print, awaited: Awaited) -> Result<T, Stop> {
    let Awaited::Number(limit) = awaited else {
        return refuse(errors, b"--condition takes a file", b"");
    };
    let (name, least, most) = limit.range();
    errors.write_all(b"explore: ")?;
    errors.write_all(name)?;
    println!(errors; " takes a number from {least} to {most}")?;
    Err(Stop::Refused)
}
