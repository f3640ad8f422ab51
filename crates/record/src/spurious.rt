// A spurious record, after loom's Spurious: whether it says yes.
ghost use Rattle.std.specs.Prelude.{◌+◌, ◌*◌, ◌≤◌, cond, eqb, length};
ghost use Rattle.record.specs.Answers.{CountIs};
ghost use Rattle.record.specs.Fields.{record_byte};
ghost use Rattle.record.specs.Steps.{Sets};

use crate::fields;
use crate::fields::{field, put};

// How many choices are open: a branch that says no can still say yes.
pub fn open(path: &[u8], at: usize) -> u64
    requires { 16 * at + 16 ≤ length path.now }
    ensures { CountIs 1 (cond (eqb (record_byte path.now at 2) 0) 1 0) result }
{
    if field(path, at, fields::SPUR) == 0 {
        return 1;
    }
    0
}

// From no to yes. Answers whether it said no.
pub fn step(path: &mut [u8], at: usize) -> bool
    requires { 16 * at + 16 ≤ length path.old }
    ensures { Sets path.old path.new at result }
{
    if field(path, at, fields::SPUR) == 0 {
        put(path, at, fields::SPUR, 1);
        return true;
    }
    false
}
