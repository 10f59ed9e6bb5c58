// UTF-8 forms of more than one byte, by the table of RFC 3629, section 4.
ghost use Rattle.std.specs.Prelude.{◌≡◌, ◌<◌};
ghost use Rattle.json_text.specs.Utf8.{is_tail, tails_at, second_at, multi_at};

use crate::SyntaxError;
use crate::bytes::byte;

#[tactic(auto, unfolding(crate::specs::Utf8::is_tail))]
fn is_tail(b: u8) -> bool
    ensures { result ≡ is_tail b }
{
    matches!(b, 0x80..=0xBF)
}

// So many tail bytes.
fn tails(text: &[u8], at: usize, count: usize) -> Result<usize, SyntaxError>
    ensures { result ≡ tails_at count text.now at }
{
    let mut i = at;
    for _ in 0..count {
        if !is_tail(byte(text, i)) {
            return Err(SyntaxError::Malformed);
        }
        i += 1;
    }
    Ok(i)
}

// A second byte within bounds, then so many tail bytes.
#[tactic(auto, unfolding(crate::specs::Utf8::second_at))]
fn second(text: &[u8], at: usize, low: u8, high: u8, count: usize) -> Result<usize, SyntaxError>
    requires { 0 < low }
    ensures { result ≡ second_at low high count text.now at }
{
    let b = byte(text, at);
    if b < low || high < b {
        return Err(SyntaxError::Malformed);
    }
    tails(text, at + 1, count)
}

// A character of more than one byte.
#[tactic(auto, unfolding(crate::specs::Utf8::multi_at))]
pub(crate) fn multi(text: &[u8], at: usize) -> Result<usize, SyntaxError>
    ensures { result ≡ multi_at text.now at }
{
    match byte(text, at) {
        0xC2..=0xDF => second(text, at + 1, 0x80, 0xBF, 0),
        0xE0 => second(text, at + 1, 0xA0, 0xBF, 1),
        0xED => second(text, at + 1, 0x80, 0x9F, 1),
        0xE1..=0xEF => second(text, at + 1, 0x80, 0xBF, 1),
        0xF0 => second(text, at + 1, 0x90, 0xBF, 2),
        0xF1..=0xF3 => second(text, at + 1, 0x80, 0xBF, 2),
        0xF4 => second(text, at + 1, 0x80, 0x8F, 2),
        _ => Err(SyntaxError::Malformed),
    }
}
