// How vectors pass between threads and stores: loom's rt/synchronize.rs over the lent clocks.
#![tactic(auto)]

ghost use Rattle.std.specs.Prelude.{◌≡◌, ◌<◌, [], get_or, set};
ghost use Rattle.rules.specs.Vector.{joined};
ghost use Rattle.rules.specs.Cell.{load_synced, store_synced};
ghost use Rattle.rules.specs.State.{store_at};

use layout::of_store::SYNC;
use layout::of_thread::{CAUSALITY, RELEASED};
use layout::order::{ACQ_REL, ACQUIRE, RELEASE, SEQ_CST};
use layout::{Access, Clocks, MAX_THREADS, store_at};
use vv::VersionVec;

pub mod first_seen;

// The greater of each part of two rows.
pub fn join(a: [u16; MAX_THREADS], b: [u16; MAX_THREADS]) -> [u16; MAX_THREADS]
    ensures { result ≡ joined a b }
{
    let first = VersionVec { versions: a };
    let both = first.join(VersionVec { versions: b });
    both.versions
}

// The vector at `at` takes the one at `from` in. Without the hint the compiler keeps it a function of its own for one of its callers.
#[inline(always)]
pub fn join_into(clocks: &mut Clocks, at: usize, from: usize)
    requires { (at < 132) × (from < 132) }
    ensures { clocks.new ≡ set clocks.old at (joined (get_or clocks.old at []) (get_or clocks.old from [])) }
{
    let own = clocks[at];
    let other = clocks[from];
    clocks[at] = join(own, other);
}

// A load by an order that acquires takes the store's sync vector into the thread.
pub fn sync_load(clocks: &mut Clocks, access: Access, slot: usize)
    requires { (access.thread < 5) × (access.cell < 4) × (slot < 7) }
    ensures { clocks.new ≡ load_synced clocks.old access.thread (store_at access.cell slot) access.order }
{
    let order = access.order;
    match order {
        ACQUIRE | ACQ_REL | SEQ_CST => {
            let from = SYNC + store_at(access.cell, slot);
            join_into(clocks, CAUSALITY + access.thread, from)
        }
        _ => {}
    }
}

// What a store leaves for loads that acquire: the released vector too, and by an order that releases the thread's own.
pub fn sync_store(clocks: &Clocks, access: Access, sync: [u16; MAX_THREADS]) -> [u16; MAX_THREADS]
    requires { access.thread < 5 }
    ensures { result ≡ store_synced clocks.now access.thread sync access.order }
{
    let thread = access.thread;
    let order = access.order;
    let released = clocks[RELEASED + thread];
    let sync = join(sync, released);
    match order {
        RELEASE | ACQ_REL | SEQ_CST => {
            let causality = clocks[CAUSALITY + thread];
            join(sync, causality)
        }
        _ => sync,
    }
}
