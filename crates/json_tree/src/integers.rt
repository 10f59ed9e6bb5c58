// Integers from -(2^53-1) to 2^53-1, without fraction or exponent.
ghost use Rattle.std.specs.Prelude.{◌≡◌, drop};
ghost use Rattle.json_tree.specs.Integers.{decimal, goes_on, signed, size_at, whole_at, integer_at};
ghost use Rattle.json_tree.specs.Inner.Capped.{DigitValue, Capped};

use crate::Integer;
use json_text::bytes::{byte, digits, is_digit};

// 2^53 - 1
const LARGEST: u64 = 9007199254740991;

// The value of a digit.
fn digit(b: u8) -> u64
    ensures { DigitValue b result }
{
    u64::from(b.saturating_sub(0x30))
}

// The number of the digits at a place; some number over 2^53 - 1 where it is larger than that.
fn size(text: &[u8], at: usize) -> u64
    ensures { Capped (decimal 0 (drop at text.now)) result }
{
    let mut i = at;
    let mut v: u64 = 0;
    while is_digit(byte(text, i)) {
        if LARGEST < v {
            return v;
        }
        v = v * 10 + digit(byte(text, i));
        i += 1;
    }
    v
}

// Does a fraction or an exponent begin with this byte?
#[tactic(auto, unfolding(crate::specs::Integers::goes_on))]
fn goes_on(b: u8) -> bool
    ensures { result ≡ goes_on b }
{
    matches!(b, 0x2E | 0x65 | 0x45)
}

// -0 is 0.
#[tactic(auto, unfolding(crate::specs::Integers::signed))]
fn sign(below: bool, size: u64) -> Integer
    ensures { result ≡ signed below size }
{
    Integer {
        negative: below && size != 0,
        size,
    }
}

// The digits at a place, after a minus or not.
fn sized(text: &[u8], at: usize, below: bool) -> Option<Integer>
    ensures { result ≡ size_at below text.now at }
{
    if goes_on(byte(text, digits(text, at))) {
        return None;
    }
    let v = size(text, at);
    if v <= LARGEST {
        return Some(sign(below, v));
    }
    None
}

#[tactic(auto, unfolding(crate::specs::Integers::whole_at))]
fn unsigned(text: &[u8], at: usize, below: bool) -> Option<Integer>
    ensures { result ≡ whole_at below text.now at }
{
    if is_digit(byte(text, at)) {
        return sized(text, at, below);
    }
    None
}

// The integer at a place of a JSON text.
#[tactic(auto, unfolding(crate::specs::Integers::integer_at))]
pub fn integer(text: &[u8], at: usize) -> Option<Integer>
    ensures { result ≡ integer_at text.now at }
{
    if byte(text, at) == 0x2D {
        return unsigned(text, at + 1, true);
    }
    unsigned(text, at, false)
}
