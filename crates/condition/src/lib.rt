// The final condition, read from its bytes: a comparison of a thread's register with a number, or a bracketed group of conditions
// joined by `and` or `or`, groups in each other at most eight deep. Each promise is an equation with the definition in rules
// (Condition).
#![tactic(auto)]

ghost use Rattle.std.specs.Prelude.{◌≡◌, ℕ, ◌≤◌, length, drop};
ghost use Rattle.rules.specs.Condition as rules;
ghost use Rattle.condition.specs.Reads.{ReadsCondition, NextByte, found_in, register_value};

use layout::of_thread::REGISTER;
use layout::{REGISTERS, VALUES, Values, register_at, wide8};
use little::u64_at;

// The first byte of each part; and what stands for none, at the end, and before a group's first joint. Bytes, since a condition may be any
// bytes and the definition goes by them.
const NO_PART: u8 = 0;

pub const EQUALS: u8 = 1;

pub const DIFFERS: u8 = 2;

pub const BELOW: u8 = 3;

pub const AT_MOST: u8 = 4;

pub const ABOVE: u8 = 5;

pub const AT_LEAST: u8 = 6;

pub const OPENS: u8 = 7;

pub const CLOSES: u8 = 8;

pub const BOTH: u8 = 9;

pub const EITHER: u8 = 10;

// In bytes: a comparison, and the longest condition.
pub const COMPARISON: usize = 11;

pub const CONDITION_BYTES: usize = 1024;

// Where a comparison has its thread, its register and its number, behind its sign.
pub const THREAD_AT: usize = 1;

pub const REGISTER_AT: usize = 2;

pub const NUMBER_AT: usize = 3;

// How deep groups stand in each other at most.
pub const DEEP: usize = 8;

// A condition that was read: whether it holds, and where it ends.
#[derive(Clone, Copy)]
struct Read {
    holds: bool,
    end: usize,
}

// Why nothing was read: the place of the first byte that cannot stand where it does.
#[derive(Clone, Copy)]
pub struct BadByte {
    pub at: usize,
}

// Whether these bytes are one condition, or none, in a program of so many threads.
pub fn is_condition(bytes: &[u8], threads: usize) -> bool
    ensures { result ≡ rules.is_condition threads bytes.now }
{
    if bytes.len() == 0 {
        return true;
    }
    if CONDITION_BYTES < bytes.len() {
        return false;
    }
    match first_bad(bytes, threads) {
        Ok(end) => end == bytes.len(),
        Err(_) => false,
    }
}

// Where the condition ends with which these bytes begin, or which byte of it is the first bad one.
pub fn first_bad(bytes: &[u8], threads: usize) -> Result<usize, BadByte>
    ensures { result ≡ found_in (length bytes.now) (rules.condition_at threads (λ t r. 0) rules.groups_deep bytes.now) }
{
    let zeros = [0u64; VALUES];
    let read = condition(bytes, &zeros, threads, DEEP, 0)?;
    Ok(read.end)
}

// Whether the condition holds with which these bytes begin. No byte is no condition, and holds.
pub fn holds(bytes: &[u8], values: &Values, threads: usize) -> bool
    ensures { result ≡ rules.holds threads (register_value values.now) bytes.now }
{
    if bytes.len() == 0 {
        return true;
    }
    match condition(bytes, values, threads, DEEP, 0) {
        Ok(read) => read.holds,
        Err(_) => false,
    }
}

// The condition that begins here, with at most so many groups in each other.
#[cycle(condition_group)]
fn condition(
    bytes: &[u8],
    values: &Values,
    threads: usize,
    deep: usize,
    at: usize,
) -> Result<Read, BadByte>
    requires { at ≤ length bytes.now }
    ensures { ReadsCondition bytes.now at result (rules.condition_at threads (register_value values.now) deep (drop at bytes.now)) }
{
    if deep == 0 {
        return comparison(bytes, values, threads, at);
    }
    if byte_at(bytes, at) == OPENS {
        return group(bytes, values, threads, deep - 1, at + 1);
    }
    comparison(bytes, values, threads, at)
}

// The rest of a group, behind its opening bracket. All its members are joined by the same joint.
#[cycle(condition_group)]
fn group(
    bytes: &[u8],
    values: &Values,
    threads: usize,
    deep: usize,
    start: usize,
) -> Result<Read, BadByte>
    requires { start ≤ length bytes.now }
    ensures { ReadsCondition bytes.now start result (rules.group_at (rules.condition_at threads (register_value values.now) deep) (drop start bytes.now)) }
{
    let first = condition(bytes, values, threads, deep, start)?;
    let mut holds = first.holds;
    let mut at = first.end;
    let mut joint = NO_PART;
    // How far a member reaches is known once it is read, so there is nothing for a `for` to count.
    while may_join(joint, byte_at(bytes, at)) {
        joint = byte_at(bytes, at);
        let member = condition(bytes, values, threads, deep, at + 1)?;
        holds = joined_by(joint, holds, member.holds);
        at = member.end;
    }
    if byte_at(bytes, at) == CLOSES {
        return Ok(Read { holds, end: at + 1 });
    }
    Err(BadByte { at })
}

// The comparison that begins here.
fn comparison(bytes: &[u8], values: &Values, threads: usize, at: usize) -> Result<Read, BadByte>
    requires { at ≤ length bytes.now }
    ensures { ReadsCondition bytes.now at result (rules.comparison_at threads (register_value values.now) (drop at bytes.now)) }
{
    if bytes.len() - at < COMPARISON {
        return Err(BadByte { at });
    }
    let sign = bytes[at];
    let thread = wide8(bytes[at + THREAD_AT]);
    let register = wide8(bytes[at + REGISTER_AT]);
    if is_sign(sign) & (thread < threads) & (register < REGISTERS) {
        let n = u64_at(bytes, at + NUMBER_AT);
        let x = register_of(values, thread, register);
        return Ok(Read {
            holds: compared(sign, x, n),
            end: at + COMPARISON,
        });
    }
    Err(BadByte { at })
}

// The byte that stands here; 0, which is none of a condition's, at the end.
fn byte_at(bytes: &[u8], at: usize) -> u8
    ensures { NextByte bytes.now at result }
{
    if at < bytes.len() {
        return bytes[at];
    }
    NO_PART
}

pub fn is_sign(byte: u8) -> bool
    ensures { result ≡ rules.is_sign byte }
{
    (EQUALS <= byte) & (byte <= AT_LEAST)
}

// Whether this byte joins a group's members. 0 stands for the joint of a group that has none yet.
fn may_join(joint: u8, byte: u8) -> bool
    ensures { result ≡ rules.may_join joint byte }
{
    ((byte == BOTH) | (byte == EITHER)) & ((joint == NO_PART) | (joint == byte))
}

fn joined_by(joint: u8, left: bool, right: bool) -> bool
    ensures { result ≡ rules.joined_by joint left right }
{
    if joint == BOTH {
        return left & right;
    }
    left | right
}

// Whether a register that holds x compares so with n.
pub fn compared(sign: u8, x: u64, n: u64) -> bool
    ensures { result ≡ rules.compared sign x n }
{
    match sign {
        EQUALS => x == n,
        DIFFERS => x != n,
        BELOW => x < n,
        AT_MOST => x <= n,
        ABOVE => n < x,
        _ => n <= x,
    }
}

// What the register holds; 0 where there is none.
fn register_of(values: &[u64], thread: usize, register: usize) -> u64
    requires { (thread ≤ 255) × (register ≤ 255) }
    ensures { result ≡ register_value values.now thread register }
{
    let at = REGISTER + register_at(thread, register);
    if at < values.len() {
        return values[at];
    }
    0
}
