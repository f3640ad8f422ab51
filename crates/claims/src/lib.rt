// The final condition of a text: the bytes that its signs, words and comparisons stand for, and where it is refused. Each promise is an
// equation with the definition in rules (Text).
#![tactic(auto)]

ghost use Rattle.std.specs.Prelude.{◌≡◌, [], ◌+◌, ◌≤◌, ◌<◌, drop, Some};
ghost use Rattle.rules.specs.Text as rules;
ghost use Rattle.token.specs.Finds.{owned_at};
ghost use Rattle.claims.specs.Units.{most_claimed, IsOwned, UnitStands, ended_at, with_unit, Claims, Concludes, symbol_at, broken_of};

use condition::{AT_LEAST, COMPARISON, CONDITION_BYTES, EQUALS};
use little::low_bytes;
use token::Owned;

// The longest condition, and a comparison that broke off behind it.
pub const MOST_CLAIMED: usize = CONDITION_BYTES + COMPARISON;

// What stands at a place: so many bytes of a condition and where they end. A comparison that breaks off is not whole: it is filled up, and
// ends where it broke off. Its bytes count all the same, so it is no Option. The array has
// room for the longest unit, since there is no heap.
#[derive(Clone, Copy)]
struct Unit {
    whole: bool,
    size: usize,
    bytes: [u8; COMPARISON],
    at: usize,
}

// What was read of a condition, where that ended, and whether all of the text was read.
#[derive(Clone, Copy)]
struct Claim {
    whole: bool,
    length: usize,
    bytes: [u8; MOST_CLAIMED],
    at: usize,
}

// A text's condition, where it is taken: its bytes.
#[derive(Clone, Copy)]
pub struct Conclusion {
    pub length: usize,
    pub bytes: [u8; MOST_CLAIMED],
}

// The condition that begins here, in a text of so many lines at most and a program of so many threads: its bytes are read, then judged. It is
// refused, with that place, where its first byte stands that cannot stand there.
pub fn concluded(text: &[u8], lines: usize, threads: usize, at: usize) -> Result<Conclusion, usize>
    ensures { Concludes text.now at lines threads result }
{
    let all = claimed(text, lines, CONDITION_BYTES + 1, at);
    let bytes = all.bytes;
    let length = all.length;
    match condition::first_bad(token::part(&bytes, 0, length), threads) {
        Err(bad) => Err(refused(text, lines, bad.at, at)),
        Ok(stop) => {
            if stop != length || !all.whole {
                return Err(refused(text, lines, stop, at));
            }
            Ok(Conclusion { length, bytes })
        }
    }
}

// The place of a condition's byte `stop`, at which it is refused.
fn refused(text: &[u8], lines: usize, stop: usize, at: usize) -> usize
    ensures { drop result text.now ≡ (rules.claimed lines lines stop [] (drop at text.now)).rest }
{
    claimed(text, lines, stop, at).at
}

// The bytes of the condition that begins here, up to the `stop`th.
fn claimed(text: &[u8], lines: usize, stop: usize, at: usize) -> Claim
    ensures { Claims text.now lines (rules.claimed lines lines stop [] (drop at text.now)) result }
{
    let mut claim = Claim {
        whole: false,
        length: 0,
        bytes: [0; MOST_CLAIMED],
        at,
    };
    for i in 0..lines {
        let here = token::content(text, lines, claim.at);
        if text.len() <= here {
            return ended(claim, true, here);
        }
        if stop <= claim.length {
            return ended(claim, false, here);
        }
        let Some(unit) = unit_at(text, lines, here) else {
            return ended(claim, false, here);
        };
        if !unit.whole {
            return appended(claim, unit);
        }
        if CONDITION_BYTES < claim.length + unit.size {
            return ended(claim, false, here);
        }
        let more = appended(claim, unit);
        claim = more;
    }
    ended(claim, false, token::content(text, lines, claim.at))
}

// The claim, ended at a place.
fn ended(claim: Claim, whole: bool, at: usize) -> Claim
    ensures { result ≡ ended_at claim whole at }
{
    Claim { whole, at, ..claim }
}

// The claim with a unit's bytes behind its own, up to where the unit ends.
fn appended(claim: Claim, unit: Unit) -> Claim
    requires { (claim.length + unit.size ≤ most_claimed) × (unit.size ≤ 11) }
    ensures { result ≡ with_unit claim unit }
{
    let piece = unit.bytes;
    let size = unit.size;
    let length = claim.length;
    let mut bytes = claim.bytes;
    bytes[length..length + size].copy_from_slice(&piece[..size]);
    Claim {
        whole: false,
        length: length + size,
        bytes,
        at: unit.at,
    }
}

// The unit that stands here, unless it is nothing that a condition has.
fn unit_at(text: &[u8], lines: usize, at: usize) -> Option<Unit>
    ensures { UnitStands text.now (rules.unit_at lines (drop at text.now)) result }
{
    let to = token::token_end(text, at);
    match token::thread_register(text, at, to) {
        Some(owned) => Some(sign_behind(text, lines, owned, to)),
        None => symbol_at(text, at, to),
    }
}

// A bracket, `and` or `or`.
fn symbol_at(text: &[u8], at: usize, to: usize) -> Option<Unit>
    ensures { UnitStands text.now (symbol_at at to text.now) result }
{
    let symbol = token::symbol(text, at, to)?;
    if symbol <= AT_LEAST as u64 {
        return None;
    }
    Some(Unit {
        whole: true,
        size: 1,
        bytes: [symbol as u8, 0, 0, 0, 0, 0, 0, 0, 0, 0, 0],
        at: to,
    })
}

// Behind `THREAD.rREGISTER`.
fn sign_behind(text: &[u8], lines: usize, owned: Owned, from: usize) -> Unit
    requires { IsOwned owned }
    ensures { UnitStands text.now (rules.sign_behind lines (owned_at owned) (drop from text.now)) (Some result) }
{
    let at = token::content(text, lines, from);
    let to = token::token_end(text, at);
    let Some(sign) = token::symbol(text, at, to) else {
        return broken(owned, at);
    };
    if (AT_LEAST as u64) < sign {
        return broken(owned, at);
    }
    number_behind(text, lines, owned, sign, to)
}

// Behind `THREAD.rREGISTER SIGN`.
fn number_behind(text: &[u8], lines: usize, owned: Owned, sign: u64, from: usize) -> Unit
    requires { IsOwned owned × (sign ≤ 6) }
    ensures { UnitStands text.now (rules.number_behind lines (owned_at owned) sign (drop from text.now)) (Some result) }
{
    let at = token::content(text, lines, from);
    let to = token::token_end(text, at);
    let Some(n) = token::number(text, at, to) else {
        return broken(owned, at);
    };
    Unit {
        whole: true,
        size: COMPARISON,
        bytes: comparison(owned, sign, n),
        at: to,
    }
}

// A comparison that breaks off here.
fn broken(owned: Owned, at: usize) -> Unit
    requires { IsOwned owned }
    ensures { result ≡ broken_of (owned_at owned) at }
{
    Unit {
        whole: false,
        size: COMPARISON,
        bytes: comparison(owned, EQUALS as u64, 0),
        at,
    }
}

// A comparison's bytes: its sign, the thread, the register, the number's eight, the lowest first.
fn comparison(owned: Owned, sign: u64, n: u64) -> [u8; COMPARISON]
    requires { IsOwned owned × (sign ≤ 6) }
    ensures { result ≡ rules.comparison_of sign (owned_at owned) n }
{
    let number = low_bytes(n);
    [
        sign as u8,
        owned.thread as u8,
        owned.register as u8,
        number[0],
        number[1],
        number[2],
        number[3],
        number[4],
        number[5],
        number[6],
        number[7],
    ]
}
