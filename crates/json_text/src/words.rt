// Literal names, and the values that hold no other.
ghost use Rattle.std.specs.Prelude.{[], ◌∷◌, ◌≡◌, ◌<◌};
ghost use Rattle.json_text.specs.Words.{word_at, scalar_at};

use crate::SyntaxError;
use crate::bytes::byte;
use crate::numbers::number;
use crate::strings::string;

// Four given bytes.
fn four(text: &[u8], at: usize, a: u8, b: u8, c: u8, d: u8) -> Result<usize, SyntaxError>
    requires { (0 < a) × (0 < b) × (0 < c) × (0 < d) }
    ensures { result ≡ word_at (a ∷ b ∷ c ∷ d ∷ []) text.now at }
{
    if byte(text, at) == a
        && byte(text, at + 1) == b
        && byte(text, at + 2) == c
        && byte(text, at + 3) == d
    {
        return Ok(at + 4);
    }
    Err(SyntaxError::Malformed)
}

// A value that is neither an object nor an array.
#[tactic(auto, unfolding(crate::specs::Words::scalar_at))]
pub fn scalar(text: &[u8], at: usize) -> Result<usize, SyntaxError>
    ensures { result ≡ scalar_at text.now at }
{
    match byte(text, at) {
        0x22 => string(text, at),
        0x66 => four(text, at + 1, 0x61, 0x6C, 0x73, 0x65),
        0x6E => four(text, at, 0x6E, 0x75, 0x6C, 0x6C),
        0x74 => four(text, at, 0x74, 0x72, 0x75, 0x65),
        _ => number(text, at),
    }
}
