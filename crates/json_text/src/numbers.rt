// Numbers: [ minus ] int [ frac ] [ exp ], RFC 8259, section 6.
ghost use Rattle.std.specs.Prelude.{◌≡◌};
ghost use Rattle.json_text.specs.Numbers.{some_digits_at, int_at, frac_at, power_at, exp_at, unsigned_at, number_at};

use crate::SyntaxError;
use crate::bytes::{byte, digits, is_digit};

// One digit or more.
#[tactic(auto, unfolding(crate::specs::Numbers::some_digits_at))]
pub fn some_digits(text: &[u8], at: usize) -> Result<usize, SyntaxError>
    ensures { result ≡ some_digits_at text.now at }
{
    if !is_digit(byte(text, at)) {
        return Err(SyntaxError::Malformed);
    }
    Ok(digits(text, at + 1))
}

#[tactic(auto, unfolding(crate::specs::Numbers::int_at))]
fn int(text: &[u8], at: usize) -> Result<usize, SyntaxError>
    ensures { result ≡ int_at text.now at }
{
    if byte(text, at) == 0x30 {
        return Ok(at + 1);
    }
    some_digits(text, at)
}

#[tactic(auto, unfolding(crate::specs::Numbers::frac_at))]
pub fn frac(text: &[u8], at: usize) -> Result<usize, SyntaxError>
    ensures { result ≡ frac_at text.now at }
{
    if byte(text, at) == 0x2E {
        return some_digits(text, at + 1);
    }
    Ok(at)
}

// The exponent after its e.
#[tactic(auto, unfolding(crate::specs::Numbers::power_at))]
fn power(text: &[u8], at: usize) -> Result<usize, SyntaxError>
    ensures { result ≡ power_at text.now at }
{
    if matches!(byte(text, at), 0x2D | 0x2B) {
        return some_digits(text, at + 1);
    }
    some_digits(text, at)
}

#[tactic(auto, unfolding(crate::specs::Numbers::exp_at))]
fn exp(text: &[u8], at: usize) -> Result<usize, SyntaxError>
    ensures { result ≡ exp_at text.now at }
{
    if matches!(byte(text, at), 0x65 | 0x45) {
        return power(text, at + 1);
    }
    Ok(at)
}

#[tactic(auto, unfolding(crate::specs::Numbers::unsigned_at))]
fn unsigned(text: &[u8], at: usize) -> Result<usize, SyntaxError>
    ensures { result ≡ unsigned_at text.now at }
{
    let j = int(text, at)?;
    let k = frac(text, j)?;
    exp(text, k)
}

#[tactic(auto, unfolding(crate::specs::Numbers::number_at))]
pub(crate) fn number(text: &[u8], at: usize) -> Result<usize, SyntaxError>
    ensures { result ≡ number_at text.now at }
{
    if byte(text, at) == 0x2D {
        return unsigned(text, at + 1);
    }
    unsigned(text, at)
}
