// Strings: chars between quotes, RFC 8259, section 7.
ghost use Rattle.std.specs.Prelude.{◌≡◌};
ghost use Rattle.json_text.specs.Strings.{is_hex, hex_at, is_escaped, escape_at, char_at, string_at};

use crate::SyntaxError;
use crate::bytes::byte;
use crate::plain::{is_plain, plain};
use crate::utf8::multi;

#[tactic(auto, unfolding(crate::specs::Strings::is_hex, crate::specs::Bytes::is_digit))]
fn is_hex(b: u8) -> bool
    ensures { result ≡ is_hex b }
{
    matches!(b, 0x30..=0x39 | 0x41..=0x46 | 0x61..=0x66)
}

// Four hexadecimal digits.
#[tactic(auto, unfolding(crate::specs::Strings::hex_at))]
fn hex(text: &[u8], at: usize) -> Result<usize, SyntaxError>
    ensures { result ≡ hex_at text.now at }
{
    if is_hex(byte(text, at))
        && is_hex(byte(text, at + 1))
        && is_hex(byte(text, at + 2))
        && is_hex(byte(text, at + 3))
    {
        return Ok(at + 4);
    }
    Err(SyntaxError::Malformed)
}

#[tactic(auto, unfolding(crate::specs::Strings::is_escaped))]
fn is_escaped(b: u8) -> bool
    ensures { result ≡ is_escaped b }
{
    matches!(b, 0x22 | 0x5C | 0x2F | 0x62 | 0x66 | 0x6E | 0x72 | 0x74)
}

// What follows a backslash.
#[tactic(auto, unfolding(crate::specs::Strings::escape_at))]
fn escape(text: &[u8], at: usize) -> Result<usize, SyntaxError>
    ensures { result ≡ escape_at text.now at }
{
    let b = byte(text, at);
    if is_escaped(b) {
        return Ok(at + 1);
    }
    if b == 0x75 {
        return hex(text, at + 1);
    }
    Err(SyntaxError::Malformed)
}

// One char, which is no quotation mark.
#[tactic(auto, unfolding(crate::specs::Strings::char_at))]
fn character(text: &[u8], at: usize) -> Result<usize, SyntaxError>
    ensures { result ≡ char_at text.now at }
{
    let b = byte(text, at);
    if b == 0x5C {
        return escape(text, at + 1);
    }
    if b < 0x20 {
        return Err(SyntaxError::Malformed);
    }
    if b < 0x80 {
        return Ok(at + 1);
    }
    multi(text, at)
}

// A string with its quotes. A turn of the loop is a run of plain bytes, or one char.
#[tactic(auto, using(crate::proofs::Ahead::turns))]
pub fn string(text: &[u8], at: usize) -> Result<usize, SyntaxError>
    ensures { result ≡ string_at text.now at }
{
    if byte(text, at) != 0x22 {
        return Err(SyntaxError::Malformed);
    }
    let mut i = at + 1;
    while i < text.len() {
        let b = byte(text, i);
        if is_plain(b) {
            i = plain(text, i + 1);
            continue;
        }
        if b == 0x22 {
            return Ok(i + 1);
        }
        i = character(text, i)?;
    }
    Err(SyntaxError::Malformed)
}
