// Escaped surrogates: each has its partner. A pass of its own over a text that is known to be JSON, since one
// without a partner is still JSON and does not stop the reading.
ghost use Rattle.std.specs.Prelude.{◌≡◌, ◌≤◌, ◌<◌, length};
ghost use Rattle.json_strict.specs.Surrogates.{unit_at, is_first, is_second, partner_at, pair_at, escaped_at, pairs_at};
ghost use Rattle.json_strict.specs.Inner.Hex.{HexValue};

use json_text::SyntaxError;
use json_text::bytes::byte;

// The value of a hexadecimal digit.
#[tactic(auto, unfolding(crate::specs::Surrogates::hex_value))]
fn hex_value(b: u8) -> u32
    ensures { HexValue b result }
{
    match b {
        0x30..=0x39 => u32::from(b - 0x30),
        0x41..=0x46 => u32::from(b - 0x37),
        0x61..=0x66 => u32::from(b - 0x57),
        _ => 0,
    }
}

// The number of four hexadecimal digits.
fn unit(text: &[u8], at: usize) -> u32
    requires { at < 131072 }
    ensures { result ≡ unit_at text.now at }
{
    let a = hex_value(byte(text, at));
    let b = hex_value(byte(text, at + 1));
    let c = hex_value(byte(text, at + 2));
    let d = hex_value(byte(text, at + 3));
    ((a * 16 + b) * 16 + c) * 16 + d
}

#[tactic(auto, unfolding(crate::specs::Surrogates::is_first))]
fn is_first(u: u32) -> bool
    ensures { result ≡ is_first u }
{
    matches!(u, 0xD800..=0xDBFF)
}

#[tactic(auto, unfolding(crate::specs::Surrogates::is_second))]
fn is_second(u: u32) -> bool
    ensures { result ≡ is_second u }
{
    matches!(u, 0xDC00..=0xDFFF)
}

// Is the second of a pair escaped here?
#[tactic(auto, unfolding(crate::specs::Surrogates::partner_at))]
fn partner(text: &[u8], at: usize) -> bool
    requires { at < 100000 }
    ensures { result ≡ partner_at text.now at }
{
    byte(text, at) == 0x5C && byte(text, at + 1) == 0x75 && is_second(unit(text, at + 2))
}

// The escape whose backslash stands here.
#[tactic(auto, unfolding(crate::specs::Surrogates::pair_at))]
fn pair(text: &[u8], at: usize) -> Result<usize, SyntaxError>
    requires { at < 65536 }
    ensures { result ≡ pair_at text.now at }
{
    let u = unit(text, at + 2);
    if is_second(u) {
        return Err(SyntaxError::Malformed);
    }
    if is_first(u) {
        if partner(text, at + 6) {
            return Ok(at + 12);
        }
        return Err(SyntaxError::Malformed);
    }
    Ok(at + 6)
}

// An escape, or a byte that is none.
#[tactic(auto, unfolding(crate::specs::Surrogates::escaped_at))]
fn escaped(text: &[u8], at: usize) -> Result<usize, SyntaxError>
    requires { at < 65536 }
    ensures { result ≡ escaped_at text.now at }
{
    if byte(text, at) != 0x5C {
        return Ok(at + 1);
    }
    if byte(text, at + 1) != 0x75 {
        return Ok(at + 2);
    }
    pair(text, at)
}

// The whole text.
pub(crate) fn pairs(text: &[u8]) -> Result<usize, SyntaxError>
    requires { length text.now ≤ 65536 }
    ensures { result ≡ pairs_at (length text.now) text.now 0 }
{
    let mut i = 0;
    for _ in 0..text.len() {
        if text.len() <= i {
            return Ok(i);
        }
        i = escaped(text, i)?;
    }
    Ok(i)
}
