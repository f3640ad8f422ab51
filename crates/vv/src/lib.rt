// Version vectors, after loom's rt/vv.rs. Each promise is an equation with the definition in rules.
#![tactic(auto)]

ghost use Rattle.std.specs.Prelude.{◌≡◌};
ghost use Rattle.rules.specs.Vector.{at_most, equal, less, joined, ahead, one_more, raised, zeros};
ghost use Rattle.vv.specs.Compared.{ordering_of};
ghost use Rattle.vv.specs.Whom.{whom};

use layout::MAX_THREADS;

// The largest number that a part can be; a mark of this number is unseen, so no version passes it.
pub const LARGEST: u16 = u16::MAX;

#[derive(Clone, Copy)]
pub struct VersionVec {
    pub versions: [u16; MAX_THREADS],
}

// How a vector stands to another. Neither is greater, or greater in one part and less in another: std's Ordering would tell these two apart,
// for which the walk would have to go on past the first greater part.
#[derive(Clone, Copy, PartialEq)]
pub enum Ordering {
    Less,
    Equal,
    Neither,
}

// One more; the largest stays, so that a later version is never taken for an earlier one.
pub fn one_more(n: u16) -> u16
    ensures { result ≡ one_more n }
{
    n.saturating_add(1)
}

impl VersionVec {
    // The vector of a thread that has seen nothing.
    pub fn new() -> Self
        ensures { result.versions ≡ zeros 5 }
    {
        VersionVec {
            versions: [0; MAX_THREADS],
        }
    }

    // The greater of each part.
    pub fn join(mut self, other: VersionVec) -> VersionVec
        ensures { result.versions ≡ joined self.versions other.versions }
    {
        for i in 0..MAX_THREADS {
            if self.versions[i] < other.versions[i] {
                self.versions[i] = other.versions[i];
            }
        }
        self
    }

    // The thread's own part raised by one. A thread that is none changes nothing. All parts are gone through, since a part
    // that is written alone holds up the next read of all five.
    pub fn raise(mut self, thread: usize) -> VersionVec
        ensures { result.versions ≡ raised self.versions thread }
    {
        for i in 0..MAX_THREADS {
            let n = self.versions[i];
            self.versions[i] = if i == thread { one_more(n) } else { n };
        }
        self
    }

    // Whether each part is at most the other's. The first that is greater ends the walk.
    pub fn at_most(self, other: VersionVec) -> bool
        ensures { result ≡ at_most self.versions other.versions }
    {
        for i in 0..MAX_THREADS {
            if self.versions[i] > other.versions[i] {
                return false;
            }
        }
        true
    }

    // Whether all parts are equal. The first that is not ends the walk; `==` of arrays would go through all.
    pub fn equal(self, other: VersionVec) -> bool
        ensures { result ≡ equal self.versions other.versions }
    {
        for i in 0..MAX_THREADS {
            if self.versions[i] != other.versions[i] {
                return false;
            }
        }
        true
    }

    // Less, equal or neither. The first part that is greater ends the walk; loom's goes on there to tell greater from neither,
    // which nobody asks here.
    pub fn partial_cmp(self, other: VersionVec) -> Ordering
        ensures { result ≡ ordering_of self.versions other.versions }
    {
        let mut same = true;
        for i in 0..MAX_THREADS {
            if other.versions[i] < self.versions[i] {
                return Ordering::Neither;
            }
            same = same & (self.versions[i] == other.versions[i]);
        }
        if same {
            Ordering::Equal
        } else {
            Ordering::Less
        }
    }

    // Whether each part is at most the other's and not all are equal.
    pub fn less(self, other: VersionVec) -> bool
        ensures { result ≡ less self.versions other.versions }
    {
        self.partial_cmp(other) == Ordering::Less
    }

    // The lowest thread whose part in the other vector is greater. It ends the walk.
    pub fn ahead(self, other: VersionVec) -> Option<u8>
        ensures { whom result ≡ ahead self.versions other.versions }
    {
        for i in 0..MAX_THREADS {
            if self.versions[i] < other.versions[i] {
                return Some(i as u8);
            }
        }
        None
    }
}
