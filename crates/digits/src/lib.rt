// Digits in the bytes of a string: the numbers that they write, and fractions of a second.
#![tactic(auto)]

ghost use Rattle.std.specs.Prelude.{◌≡◌, ◌<◌};
ghost use Rattle.std.specs.List.{list_all};
ghost use Rattle.json_text.specs.Bytes.{is_digit};
ghost use Rattle.digits.specs.Digits.{digit, four_at};
ghost use Rattle.digits.specs.Inner.Small.{TwoAt};
ghost use Rattle.digits.specs.Fraction.{legal_fraction};

use json_text::bytes::{byte, is_digit};

// The value of a digit; 0 for a byte below the digits.
pub fn digit(b: u8) -> u32
    ensures { result ≡ digit b }
{
    u32::from(b.saturating_sub(0x30))
}

// The number that two digits write.
pub fn two(raw: &[u8], at: usize) -> u32
    requires { at < 1000 }
    ensures { TwoAt raw.now at result }
{
    let a = digit(byte(raw, at));
    let b = digit(byte(raw, at + 1));
    10 * a + b
}

// The number that four digits write.
pub fn four(raw: &[u8], at: usize) -> u32
    requires { at < 100 }
    ensures { result ≡ four_at raw.now at }
{
    let a = two(raw, at);
    let b = two(raw, at + 2);
    100 * a + b
}

// Are all bytes digits?
fn all_digits(part: &[u8]) -> bool
    ensures { result ≡ list_all is_digit part.now }
{
    part.iter().all(|b| is_digit(*b))
}

// Are the bytes after a point a legal fraction: digits, non-zero, with no trailing zero? A last digit that is not 0 says both.
pub fn legal_fraction(part: &[u8]) -> bool
    ensures { result ≡ legal_fraction part.now }
{
    match part {
        [.., last] => *last != 0x30 && all_digits(part),
        [] => false,
    }
}
