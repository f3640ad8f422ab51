// What a final condition says, part by part, of what the registers hold.
#![tactic(auto)]

ghost use Rattle.std.specs.Prelude.{◌≡◌, ◌+◌, ◌≤◌, length, IfSome};
ghost use Rattle.put.specs.Puts.{Puts};
ghost use Rattle.unmet.specs.Parts.{next_from, part_at, claim_shown};

use condition::{COMPARISON, NUMBER_AT, REGISTER_AT, THREAD_AT, compared, is_sign};
use layout::wide8;
use little::u64_at;
use steps::held;
use steps::held::Held;

// The most threads whose numbers have one digit.
const ONE_DIGIT: usize = 10;

// A comparison of a thread's register with a number, the value that the register holds, and whether the comparison is true.
#[derive(Clone, Copy)]
pub struct Part {
    pub sign: u8,
    pub thread: u8,
    pub register: u8,
    pub number: u64,
    pub value: u64,
    pub holds: bool,
}

// The place of the first comparison from this place on.
pub fn next_comparison(condition: &[u8], from: usize) -> Option<usize>
    ensures { result ≡ next_from condition.now from }
{
    for i in from..condition.len() {
        if is_sign(condition[i]) {
            return Some(i);
        }
    }
    None
}

// The comparison that begins here, by what is held; none where there is no room for one.
pub fn part_at(condition: &[u8], held: &Held, at: usize) -> Option<Part>
    ensures same { result ≡ part_at condition.now held.now at }
    ensures room { IfSome result (λ part. at + 11 ≤ length condition.now) }
{
    if condition.len() < COMPARISON {
        return None;
    }
    if condition.len() - COMPARISON < at {
        return None;
    }
    let sign = condition[at];
    let thread = condition[at + THREAD_AT];
    let register = condition[at + REGISTER_AT];
    let number = u64_at(condition, at + NUMBER_AT);
    let value = held::register(held, thread, wide8(register));
    Some(Part {
        sign,
        thread,
        register,
        number,
        value,
        holds: compared(sign, value, number),
    })
}

// Puts the line of a condition of a program of so many threads; nothing where these bytes are none.
pub fn put(text: &mut [u8], at: usize, condition: &[u8], threads: usize) -> usize
    ensures { Puts text.old text.new at (claim_shown threads condition.now) result }
{
    if threads <= ONE_DIGIT {
        if condition::is_condition(condition, threads) {
            return condition_line::put_condition(text, at, condition);
        }
    }
    at
}
