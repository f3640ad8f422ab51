// A number as text: its decimal digits, the most significant first, with no zero in front. The kit's io has such a function too;
// this one needs no C library, so that text can be made where nothing is printed, and says what every byte is left as.
#![tactic(auto)]

ghost use Rattle.std.specs.Prelude.{◌≡◌, length};
ghost use Rattle.std.proofs.lemmas.List.Edits.{sets};
ghost use Rattle.digits.specs.Shown.{shown, Spelled};

// As many as a number of 64 bits has at most.
pub const MOST_DIGITS: usize = 20;

// Puts a number's digits at the start of `out`, which is else left as it is; answers how many there are.
pub fn spell(out: &mut [u8; MOST_DIGITS], n: u64) -> usize
    ensures { Spelled n out.old out.new result }
{
    let k = count(n);
    write(out, n, k);
    k
}

// How many digits a number has.
pub fn count(n: u64) -> usize
    ensures { result ≡ length (shown n) }
{
    let mut k = 1;
    let mut rest = n / 10;
    // How often it can be divided is what is asked, so there is no range for a `for`.
    while 0 < rest {
        rest /= 10;
        k += 1;
    }
    k
}

// Puts the digits, of which there are `k`, from the last one to the first.
fn write(out: &mut [u8; MOST_DIGITS], n: u64, k: usize)
    requires { k ≡ length (shown n) }
    ensures { out.new ≡ sets out.old 0 (shown n) }
{
    let mut rest = n;
    for i in (0..k).rev() {
        out[i] = b'0' + (rest % 10) as u8;
        rest /= 10;
    }
}
