// What the machine does at a tick, as the explorer is told it: document 01's faults, the questions that the path answers, and
// how a tick comes out. Each stands for a case of the definition (specs/Moves).
#![tactic(auto)]

ghost use Rattle.std.specs.Prelude.{◌≡◌};
ghost use Rattle.event.specs.declared.Fault.TheVariants as fault;

use decode::Op;
use track::Race;

// Why a run stops within an execution: document 01's answers from 10 on. Impossible stands for a number read back that
// no run from a fresh start can have written.
#[derive(Clone, Copy)]
pub enum Fault {
    Deadlock,
    Full,
    Rows,
    EqualOrders,
    Race { kind: u8, other: u8 },
    Check,
    Flags,
    Preemptions,
    Impossible,
}

impl From<Race> for Fault {
    ghost from_gives = { λ race f. f ≡ fault.Race race.kind race.other };

    fn from(race: Race) -> Fault {
        Fault::Race {
            kind: race.kind,
            other: race.other,
        }
    }
}

// Where something happens: a thread, and its row.
#[derive(Clone, Copy)]
pub struct Site {
    pub thread: usize,
    pub row: u16,
}

// A thread at its row, and what that row does.
#[derive(Clone, Copy)]
pub struct Here {
    pub site: Site,
    pub row: Option<Op>,
}

// What is asked: which thread runs, which store is read, whether `branch_spurious` is set.
#[derive(Clone, Copy)]
pub enum Question {
    Thread,
    Slot,
    Bit,
}

// What a branch of the path chooses: a thread, chosen at the branch with this position, or nobody; a slot, with the mask of all that were
// offered; a bit.
#[derive(Clone, Copy)]
pub enum Picked {
    Thread { chosen: usize, branch: u16 },
    Nobody,
    Slot { slot: usize, mask: u8 },
    Bit(bool),
}

// What a tick, or going on with an answer, comes to; an error is the fault that stops it.
#[derive(Clone, Copy)]
pub enum Moved {
    // It goes on, and no row is complete.
    Moves,
    // A row is complete: slot (or 255), offer mask and value of its trace entry.
    Done { slot: u8, mask: u8, value: u64 },
    // It asks; a yield is complete before it asks, and has its entry.
    Asks { question: Question, yielded: bool },
    // The execution has ended.
    Ends,
}

// A row without a slot in its trace entry.
pub const NO_SLOT: u8 = 255;

// A row is complete that has neither slot nor value in its trace entry.
pub const BARE_DONE: Moved = Moved::Done {
    slot: NO_SLOT,
    mask: 0,
    value: 0,
};

// In the report: no thread, no row, and no other thread where there is no race.
pub const NO_PLACE: u64 = 255;

// The same as a thread or a row of a table.
pub const NOWHERE: usize = NO_PLACE as usize;

// The same as a row of a site.
pub const NO_ROW: u16 = NO_PLACE as u16;
