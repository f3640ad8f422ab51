// One record of the execution path, after loom's Schedule, Load and Spurious in rt/path.rs: 16 bytes
// at a position of a buffer that the caller lends. Every function is asked only for a record that
// the buffer has; which records make a path is the crate path's.
#![tactic(auto)]

pub mod fields;
pub mod load;
pub mod schedule;
pub mod spurious;

ghost use Rattle.std.specs.Prelude.{◌+◌, ◌*◌, ◌≤◌, length};
ghost use Rattle.record.specs.Steps.{OpenAt, StepsAt};

// The slot that a load branch chooses, and the mask of all that it offers.
#[derive(Clone, Copy)]
pub struct Offered {
    pub slot: usize,
    pub mask: u8,
}

// How many choices are open at the record at a position: none where it is not explored.
pub fn open_at(path: &[u8], at: usize) -> u64
    requires { 16 * at + 16 ≤ length path.now }
    ensures { OpenAt path.now at result }
{
    if !fields::is_exploring(path, at) {
        return 0;
    }
    let kind = fields::field(path, at, fields::KIND);
    match kind {
        fields::KIND_SCHEDULE => schedule::pending(path, at),
        fields::KIND_LOAD => load::open(path, at),
        fields::KIND_SPURIOUS => spurious::open(path, at),
        _ => 0,
    }
}

// Sets the record at a position to its next choice, and answers whether there was one. Where it is
// not explored there is none.
pub fn step_at(path: &mut [u8], at: usize) -> bool
    requires { 16 * at + 16 ≤ length path.old }
    ensures { StepsAt path.old path.new at result }
{
    if !fields::is_exploring(path, at) {
        return false;
    }
    let kind = fields::field(path, at, fields::KIND);
    match kind {
        fields::KIND_SCHEDULE => schedule::step(path, at),
        fields::KIND_LOAD => load::step(path, at),
        fields::KIND_SPURIOUS => spurious::step(path, at),
        _ => false,
    }
}
