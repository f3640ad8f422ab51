// What was found so far, and what is said of it.
use crate::compare::Agreement;
use crate::fields::{Fields, NoCase};
use std::{fmt, io};

// The most cases whose first difference is shown.
const SHOWN: u64 = 20;

// Lines read and cases among them. Of these the ones that agree, those that ask for longer buffers, and those that differ.
#[derive(Clone, Copy, Default)]
pub struct Tally {
    lines: u64,
    cases: u64,
    agree: u64,
    unread: u64,
    differ: u64,
}

impl Tally {
    // One line more was read.
    pub fn next_line(mut self) -> Self {
        self.lines = self.lines.saturating_add(1);
        self
    }

    // Counts a case, and says what differs first if it does not agree.
    pub fn with(mut self, rt: &impl Print, line: &[u8], agreement: Agreement) -> io::Result<Self> {
        match agreement {
            Agreement::Agrees => self.agree = self.agree.saturating_add(1),
            Agreement::Unread => self.unread = self.unread.saturating_add(1),
            Agreement::Differs(difference) => {
                if self.differ < SHOWN {
                    rt.write_all(Fields::of(line).next())?;
                    println!(rt; ": {difference}")?;
                }
                self.differ = self.differ.saturating_add(1);
            }
        }
        self.cases = self.cases.saturating_add(1);
        Ok(self)
    }

    // Says that the last line is no case, and why: then there is no tally.
    pub fn refuse(self, rt: &impl Eprint, why: NoCase) -> io::Result<Option<Self>> {
        let line = self.lines;
        eprintln!(rt; "line {line}: {why}")?;
        Ok(None)
    }
}

// The last line of the output.
impl fmt::Display for Tally {
    fn fmt<W: fmt::Write>(&self, f: &mut fmt::Formatter<W>) -> fmt::Result {
        let Tally {
            cases,
            agree,
            unread,
            ..
        } = *self;
        write!(f, "{cases} cases, {agree} agree")?;
        if 0 < unread {
            write!(f, ", {unread} ask for longer buffers")?;
        }
        Ok(())
    }
}
