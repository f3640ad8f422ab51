// Which accesses a cell has had, and whether one more races with them: loom's track_ functions.
#![tactic(auto)]

ghost use Rattle.std.specs.Prelude.{◌≡◌, ◌<◌, [], get_or};
ghost use Rattle.rules.specs.Cell.{of_kind, load_race, load_tracked, unsync_load_race, unsync_load_tracked, store_race, store_tracked, mut_race, mut_tracked};
ghost use Rattle.rules.specs.State.{vector, causality};
ghost use Rattle.rules.specs.Vector as rules;
ghost use Rattle.track.specs.Tracked.{race_meant, Tracked};

use layout::Clocks;
use layout::of_cell::{LOADED_AT, STORED_AT, UNSYNC_LOADED_AT, UNSYNC_MUT_AT};
use layout::of_thread::CAUSALITY;
use layout::races::{
    LOAD_AGAINST_MUT, MUT_AGAINST_LOAD, MUT_AGAINST_MUT, MUT_AGAINST_STORE,
    MUT_AGAINST_UNSYNC_LOAD, STORE_AGAINST_MUT, STORE_AGAINST_UNSYNC_LOAD, UNSYNC_LOAD_AGAINST_MUT,
    UNSYNC_LOAD_AGAINST_STORE,
};
use synchronize::join_into;
use vv::VersionVec;

pub mod access;

// A race: its kind by document 01's number, and the lowest thread that is ahead.
#[derive(Clone, Copy)]
pub struct Race {
    pub kind: u8,
    pub other: u8,
}

// A race of this kind where the accesses recorded at `at` have a thread ahead of the current one. Whether there is any is asked first: where
// nothing races, which is nearly always, the compiler then sets no race's bytes before each comparison.
pub fn race_with(clocks: &Clocks, thread: usize, at: usize, kind: u8) -> Result<(), Race>
    requires { (thread < 5) × (at < 132) }
    ensures { race_meant result ≡ of_kind kind (rules.ahead (vector clocks.now (causality thread)) (get_or clocks.now at [])) }
{
    let current = clocks[CAUSALITY + thread];
    let recorded = clocks[at];
    let current = VersionVec { versions: current };
    let recorded = VersionVec { versions: recorded };
    if recorded.at_most(current) {
        return Ok(());
    }
    match current.ahead(recorded) {
        Some(other) => Err(Race { kind, other }),
        None => Ok(()),
    }
}

// Track an atomic load.
pub fn track_load(clocks: &mut Clocks, thread: usize, cell: usize) -> Result<(), Race>
    requires { (thread < 5) × (cell < 4) }
    ensures { Tracked (race_meant result) clocks.new (load_race clocks.old thread cell) (load_tracked clocks.old thread cell) }
{
    let at = UNSYNC_MUT_AT + cell;
    race_with(clocks, thread, at, LOAD_AGAINST_MUT)?;
    join_into(clocks, LOADED_AT + cell, CAUSALITY + thread);
    Ok(())
}

// Track an unsynchronised load.
pub fn track_unsync_load(clocks: &mut Clocks, thread: usize, cell: usize) -> Result<(), Race>
    requires { (thread < 5) × (cell < 4) }
    ensures { Tracked (race_meant result) clocks.new (unsync_load_race clocks.old thread cell) (unsync_load_tracked clocks.old thread cell) }
{
    let at = UNSYNC_MUT_AT + cell;
    race_with(clocks, thread, at, UNSYNC_LOAD_AGAINST_MUT)?;
    let at = STORED_AT + cell;
    race_with(clocks, thread, at, UNSYNC_LOAD_AGAINST_STORE)?;
    join_into(clocks, UNSYNC_LOADED_AT + cell, CAUSALITY + thread);
    Ok(())
}

// Track an atomic store.
pub fn track_store(clocks: &mut Clocks, thread: usize, cell: usize) -> Result<(), Race>
    requires { (thread < 5) × (cell < 4) }
    ensures { Tracked (race_meant result) clocks.new (store_race clocks.old thread cell) (store_tracked clocks.old thread cell) }
{
    let at = UNSYNC_MUT_AT + cell;
    race_with(clocks, thread, at, STORE_AGAINST_MUT)?;
    let at = UNSYNC_LOADED_AT + cell;
    race_with(clocks, thread, at, STORE_AGAINST_UNSYNC_LOAD)?;
    join_into(clocks, STORED_AT + cell, CAUSALITY + thread);
    Ok(())
}

// Track an exclusive change.
pub fn track_unsync_mut(clocks: &mut Clocks, thread: usize, cell: usize) -> Result<(), Race>
    requires { (thread < 5) × (cell < 4) }
    ensures { Tracked (race_meant result) clocks.new (mut_race clocks.old thread cell) (mut_tracked clocks.old thread cell) }
{
    let at = LOADED_AT + cell;
    race_with(clocks, thread, at, MUT_AGAINST_LOAD)?;
    let at = UNSYNC_LOADED_AT + cell;
    race_with(clocks, thread, at, MUT_AGAINST_UNSYNC_LOAD)?;
    let at = STORED_AT + cell;
    race_with(clocks, thread, at, MUT_AGAINST_STORE)?;
    let at = UNSYNC_MUT_AT + cell;
    race_with(clocks, thread, at, MUT_AGAINST_MUT)?;
    join_into(clocks, UNSYNC_MUT_AT + cell, CAUSALITY + thread);
    Ok(())
}
