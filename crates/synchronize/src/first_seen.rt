// When each thread first saw a store: loom's FirstSeen, and the marks of a cell's seven stores.
ghost use Rattle.std.specs.Prelude.{◌≡◌, ℕ, ◌<◌, [], get_or, set, leb};
ghost use Rattle.rules.specs.Seen.{unseens, known, seen, seen_before_yield, seen_slots, touched};

use layout::{MAX_ATOMIC_HISTORY, MAX_THREADS, Marks, NONE, UNSEEN};

// The version of each thread at its first sight of the store, or UNSEEN.
#[derive(Clone, Copy)]
pub struct FirstSeen {
    pub versions: [u16; MAX_THREADS],
}

impl FirstSeen {
    // Seen by no thread.
    pub fn new() -> Self
        ensures { result.versions ≡ unseens 5 }
    {
        FirstSeen {
            versions: [UNSEEN; MAX_THREADS],
        }
    }

    // The thread's mark, set only where it has none. All marks are gone through, as in VersionVec's raise.
    pub fn touch(mut self, thread: usize, version: u16) -> FirstSeen
        ensures { result.versions ≡ touched self.versions thread version }
    {
        for i in 0..MAX_THREADS {
            let mark = self.versions[i];
            self.versions[i] = if (i == thread) & (mark == UNSEEN) {
                version
            } else {
                mark
            };
        }
        self
    }

    // Whether some thread's first sight is known to whoever has this causality. No mark ends the walk. A mark is compared once, with
    // the latest that its part knows, which a walk over many stores makes once for all of them.
    pub fn is_seen_by_current(self, causality: [u16; MAX_THREADS]) -> bool
        ensures { result ≡ seen self.versions causality }
    {
        let mut seen = false;
        for i in 0..MAX_THREADS {
            seen = seen | (self.versions[i] <= latest_known(causality[i]));
        }
        seen
    }

    // Whether this thread saw the store no later than its last yield.
    pub fn is_seen_before_yield(self, thread: usize, last_yield: u16) -> bool
        ensures { result ≡ seen_before_yield self.versions thread last_yield }
    {
        if MAX_THREADS <= thread {
            return false;
        }
        if last_yield == NONE {
            return false;
        }
        if self.versions[thread] == UNSEEN {
            return false;
        }
        self.versions[thread] <= last_yield
    }
}

// The latest mark that a part of a causality knows: the part itself, but never UNSEEN, which is no mark.
fn latest_known(part: u16) -> u16
    ensures { (mark : ℕ) → leb mark result ≡ known mark part }
{
    if part < UNSEEN { part } else { UNSEEN - 1 }
}

// Changes the mark of first sight in place, where the thread has none: over the function that hands the marks back.
pub fn touch(seen: &mut FirstSeen, thread: usize, version: u16)
    ensures { seen.new.versions ≡ touched seen.old.versions thread version }
{
    let own = *seen;
    let own = own.touch(thread, version);
    *seen = own;
}

// The marks of one store with this thread's, where it had none.
pub fn touched_row(row: [u16; MAX_THREADS], thread: usize, version: u16) -> [u16; MAX_THREADS]
    ensures { result ≡ touched row thread version }
{
    let mut seen = FirstSeen { versions: row };
    touch(&mut seen, thread, version);
    seen.versions
}

// The marks of a new store: its own thread's alone.
pub fn fresh_row(thread: usize, version: u16) -> [u16; MAX_THREADS]
    ensures { result ≡ touched (unseens 5) thread version }
{
    let fresh = FirstSeen::new();
    let row = fresh.versions;
    touched_row(row, thread, version)
}

// Whether one store of a cell is seen.
pub fn is_seen(marks: &Marks, cell: usize, slot: usize, causality: [u16; MAX_THREADS]) -> bool
    requires { (cell < 4) × (slot < 7) }
    ensures { result ≡ seen (get_or (get_or marks.now cell []) slot []) causality }
{
    let row = marks[cell][slot];
    let first = FirstSeen { versions: row };
    first.is_seen_by_current(causality)
}

// Which stores of a cell are seen.
pub fn seen_slots(
    marks: [[u16; MAX_THREADS]; MAX_ATOMIC_HISTORY],
    causality: [u16; MAX_THREADS],
) -> [bool; MAX_ATOMIC_HISTORY]
    ensures { result ≡ seen_slots marks causality }
{
    let mut seen = [false; MAX_ATOMIC_HISTORY];
    for i in 0..MAX_ATOMIC_HISTORY {
        let row = marks[i];
        let first = FirstSeen { versions: row };
        seen[i] = first.is_seen_by_current(causality);
    }
    seen
}
