// The grammar of a duration, a function for each rule.
ghost use Rattle.std.specs.Prelude.{◌≡◌, ◌<◌};
ghost use Rattle.duration_grammar.specs.Grammar.{letter_at, unit_at, second_at, minute_at, hour_at, clock_at, time_at, day_at, week_at, cal_at, dated_at, duration_at, is_duration};

use crate::letter::upper;
use json_text::SyntaxError;
use json_text::bytes::byte;
use json_text::numbers::{frac, some_digits};

// A letter, given in upper case.
#[tactic(auto, unfolding(crate::specs::Grammar::letter_at))]
fn letter(text: &[u8], at: usize, c: u8) -> Result<usize, SyntaxError>
    requires { 0 < c }
    ensures { result ≡ letter_at c text.now at }
{
    if upper(byte(text, at)) != c {
        return Err(SyntaxError::Malformed);
    }
    Ok(at + 1)
}

// Digits and a letter.
#[tactic(auto, unfolding(crate::specs::Grammar::unit_at))]
fn unit(text: &[u8], at: usize, c: u8) -> Result<usize, SyntaxError>
    requires { 0 < c }
    ensures { result ≡ unit_at c text.now at }
{
    let j = some_digits(text, at)?;
    letter(text, j, c)
}

#[tactic(auto, unfolding(crate::specs::Grammar::second_at))]
fn second(text: &[u8], at: usize) -> Result<usize, SyntaxError>
    ensures { result ≡ second_at text.now at }
{
    let j = some_digits(text, at)?;
    let k = frac(text, j)?;
    letter(text, k, 0x53)
}

#[tactic(auto, unfolding(crate::specs::Grammar::minute_at))]
fn minute(text: &[u8], at: usize) -> Result<usize, SyntaxError>
    ensures { result ≡ minute_at text.now at }
{
    let j = unit(text, at, 0x4D)?;
    Ok(second(text, j).unwrap_or(j))
}

#[tactic(auto, unfolding(crate::specs::Grammar::hour_at))]
fn hour(text: &[u8], at: usize) -> Result<usize, SyntaxError>
    ensures { result ≡ hour_at text.now at }
{
    let j = unit(text, at, 0x48)?;
    Ok(minute(text, j).unwrap_or(j))
}

// Hours, minutes or seconds.
#[tactic(auto, unfolding(crate::specs::Grammar::clock_at))]
fn clock(text: &[u8], at: usize) -> Result<usize, SyntaxError>
    ensures { result ≡ clock_at text.now at }
{
    hour(text, at).or(minute(text, at)).or(second(text, at))
}

#[tactic(auto, unfolding(crate::specs::Grammar::time_at))]
fn time(text: &[u8], at: usize) -> Result<usize, SyntaxError>
    ensures { result ≡ time_at text.now at }
{
    let j = letter(text, at, 0x54)?;
    clock(text, j)
}

#[tactic(auto, unfolding(crate::specs::Grammar::day_at))]
fn day(text: &[u8], at: usize) -> Result<usize, SyntaxError>
    ensures { result ≡ day_at text.now at }
{
    unit(text, at, 0x44)
}

// Weeks and then days, which may be left out.
#[tactic(auto, unfolding(crate::specs::Grammar::week_at))]
fn week(text: &[u8], at: usize) -> Result<usize, SyntaxError>
    ensures { result ≡ week_at text.now at }
{
    let j = unit(text, at, 0x57)?;
    Ok(day(text, j).unwrap_or(j))
}

// Weeks or days.
#[tactic(auto, unfolding(crate::specs::Grammar::cal_at))]
fn cal(text: &[u8], at: usize) -> Result<usize, SyntaxError>
    ensures { result ≡ cal_at text.now at }
{
    week(text, at).or(day(text, at))
}

// Weeks or days and then a time, which may be left out.
#[tactic(auto, unfolding(crate::specs::Grammar::dated_at))]
fn dated(text: &[u8], at: usize) -> Result<usize, SyntaxError>
    ensures { result ≡ dated_at text.now at }
{
    let j = cal(text, at)?;
    Ok(time(text, j).unwrap_or(j))
}

// A duration at a place.
#[tactic(auto, unfolding(crate::specs::Grammar::duration_at))]
fn duration(text: &[u8], at: usize) -> Result<usize, SyntaxError>
    ensures { result ≡ duration_at text.now at }
{
    let j = letter(text, at, 0x50)?;
    dated(text, j).or(time(text, j))
}

// Is the whole string a duration?
#[tactic(auto, unfolding(crate::specs::Grammar::is_duration))]
pub fn is_duration(raw: &[u8]) -> bool
    ensures { result ≡ is_duration raw.now }
{
    duration(raw, 0).is_ok_and(|j| j == raw.len())
}
