// A plain cell, which is not synchronised, after loom's rt/cell.rs: which accesses it has had, whether one more races with them, and
// what a read and a write do to the lent state.
#![tactic(auto)]

ghost use Rattle.std.specs.Prelude.{◌≡◌, ◌<◌};
ghost use Rattle.rules.specs.Plain.{plain_read_race, plain_read_tracked, plain_write_race, plain_write_tracked, plain_read_done};
ghost use Rattle.rules.specs.State as rules;
ghost use Rattle.layout.specs.Tables.{state};
ghost use Rattle.track.specs.Tracked.{race_meant, Tracked};
ghost use Rattle.atomic.specs.Accesses.{access_of};
ghost use Rattle.plain.specs.Writes.{Writes};

use layout::of_plain::{READ_ACCESS, VALUE, WRITE_ACCESS};
use layout::of_thread::CAUSALITY;
use layout::races::{
    PLAIN_READ_AGAINST_WRITE, PLAIN_WRITE_AGAINST_READ, PLAIN_WRITE_AGAINST_WRITE,
};
use layout::{Clocks, Values};
use synchronize::join_into;
use track::{Race, race_with};

// Track a read: no write may be ahead.
pub fn track_read(clocks: &mut Clocks, thread: usize, plain: usize) -> Result<(), Race>
    requires { (thread < 5) × (plain < 4) }
    ensures { Tracked (race_meant result) clocks.new (plain_read_race clocks.old thread plain) (plain_read_tracked clocks.old thread plain) }
{
    let at = WRITE_ACCESS + plain;
    race_with(clocks, thread, at, PLAIN_READ_AGAINST_WRITE)?;
    join_into(clocks, READ_ACCESS + plain, CAUSALITY + thread);
    Ok(())
}

// Track a write: no read and no write may be ahead.
pub fn track_write(clocks: &mut Clocks, thread: usize, plain: usize) -> Result<(), Race>
    requires { (thread < 5) × (plain < 4) }
    ensures { Tracked (race_meant result) clocks.new (plain_write_race clocks.old thread plain) (plain_write_tracked clocks.old thread plain) }
{
    let at = READ_ACCESS + plain;
    race_with(clocks, thread, at, PLAIN_WRITE_AGAINST_READ)?;
    let at = WRITE_ACCESS + plain;
    race_with(clocks, thread, at, PLAIN_WRITE_AGAINST_WRITE)?;
    join_into(clocks, WRITE_ACCESS + plain, CAUSALITY + thread);
    Ok(())
}

// Reads the value.
pub fn read(clocks: &mut Clocks, values: &Values, thread: usize, plain: usize) -> Result<u64, Race>
    requires { (thread < 5) × (plain < 4) }
    ensures { (marks : rules.Marks) (numbers : rules.Numbers) → access_of result (state clocks.new marks values.now numbers) ≡ plain_read_done (state clocks.old marks values.now numbers) thread plain }
{
    track_read(clocks, thread, plain)?;
    Ok(values[VALUE + plain])
}

// Writes a value; with a race nothing changes.
pub fn write(
    clocks: &mut Clocks,
    values: &mut Values,
    thread: usize,
    plain: usize,
    value: u64,
) -> Result<(), Race>
    requires { (thread < 5) × (plain < 4) }
    ensures { Writes (race_meant result) clocks.old clocks.new values.old values.new thread plain value }
{
    track_write(clocks, thread, plain)?;
    values[VALUE + plain] = value;
    Ok(())
}
