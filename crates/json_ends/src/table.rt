// What a table of ends says of a place.
ghost use Rattle.std.specs.Prelude.{◌≡◌, ◌/◌, ◌%◌, get_or};
ghost use Rattle.json_text.specs.Strings.{string_at};
ghost use Rattle.json_value.specs.Values.{value_at};
ghost use Rattle.json_ends.specs.Inner.Ends.{Ends};

use crate::keeping::STEP;
use crate::read::result_of;
use crate::reading::value;
use json_text::SyntaxError;
use json_text::bytes::byte;
use json_text::strings::string;

// The entry of a place; 0 past the end.
fn entry(ends: &[u32], i: usize) -> u32
    ensures { result ≡ get_or ends.now i 0 }
{
    ends.get(i).copied().unwrap_or(0)
}

// The end that an entry says, and the levels.
fn end_of(entry: u32) -> usize
    ensures { result ≡ entry / 32 }
{
    (entry / STEP) as usize
}

fn levels_of(entry: u32) -> usize
    ensures { result ≡ entry % 32 }
{
    (entry % STEP) as usize
}

// The value at a place that the table does not know: it is read, with a table of its own that says nothing.
fn unknown(text: &[u8], at: usize, left: usize) -> Result<usize, SyntaxError>
    ensures { result ≡ value_at left text.now at }
{
    let mut none = [0u32; 1];
    result_of(value(text, &mut none, at, left))
}

// The value at a place; by one look where the table knows it.
pub(crate) fn past(text: &[u8], ends: &[u32], at: usize, left: usize) -> Result<usize, SyntaxError>
    requires { Ends text.now ends.now }
    ensures { result ≡ value_at left text.now at }
{
    let e = entry(ends, at);
    if e < STEP || left < levels_of(e) {
        return unknown(text, at, left);
    }
    Ok(end_of(e))
}

// The string at a place, as `string` reads it; by one look where the table knows it: a string is a value, of no level.
pub(crate) fn string_past(text: &[u8], ends: &[u32], at: usize) -> Result<usize, SyntaxError>
    requires { Ends text.now ends.now }
    ensures { result ≡ string_at text.now at }
{
    if byte(text, at) != 0x22 {
        return Err(SyntaxError::Malformed);
    }
    let known = entry(ends, at);
    if known < STEP {
        return string(text, at);
    }
    Ok(end_of(known))
}
