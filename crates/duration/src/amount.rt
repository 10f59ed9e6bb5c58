// The numbers of a duration. Digits may be many: no number is counted further than just above the limit of 366 days in seconds.
ghost use Rattle.std.specs.Prelude.{◌≡◌, ◌+◌, ◌*◌, ◌≤◌};
ghost use Rattle.digits.specs.Digits.{digit};
ghost use Rattle.duration.specs.Amount.{amount_of};
ghost use Rattle.duration.specs.Inner.Capped.{enough, Capped};

use digits::digit;
use duration_grammar::letter::upper;
use json_text::bytes::{byte, is_digit};

const ENOUGH: u64 = 31622401;

pub(crate) fn cap(n: u64) -> u64
    ensures { Capped n result }
{
    if n < ENOUGH {
        return n;
    }
    ENOUGH
}

// A number with one digit more.
fn more(n: u64, b: u8) -> u64
    requires { n ≤ enough }
    ensures { Capped (10 * n + digit b) result }
{
    cap(10 * n + digit(b) as u64)
}

// The number before the letter c, which is given in upper case; 0 where there is no such letter.
pub(crate) fn amount(raw: &[u8], c: u8) -> u64
    ensures { Capped (amount_of c raw.now) result }
{
    let mut n: u64 = 0;
    let mut i = 0;
    while i < raw.len() {
        let b = byte(raw, i);
        i += 1;
        if is_digit(b) {
            n = more(n, b);
        } else {
            if upper(b) == c {
                return n;
            }
            n = 0;
        }
    }
    0
}
