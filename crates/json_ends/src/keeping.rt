// The keeping of ends: what was read at a place is handed on, and where it ends is kept in the table.
ghost use Rattle.std.specs.Prelude.{◌≡◌, Ok};
ghost use Rattle.json_text.specs.Strings.{string_at};
ghost use Rattle.json_value.specs.Values.{name_at, value_at};
ghost use Rattle.json_ends.specs.Inner.Ends.{Ends};
ghost use Rattle.json_ends.specs.Inner.Found.{Found};
ghost use Rattle.json_ends.specs.Inner.Told.{told};

use crate::read::Reading;
use json_text::SyntaxError;
use json_text::strings::string;
use json_value::items::colon;

// An entry is an end times this, and the levels that the value was read with.
pub(crate) const STEP: u32 = 32;

// Keeps the end of the value at a place, which was read with so many levels.
fn keep(text: &[u8], ends: &mut [u32], at: usize, left: usize, end: usize)
    requires { (value_at left text.now at ≡ Ok end) × Ends text.now ends.old }
    ensures { Ends text.now ends.new }
{
    if left < 32 && end <= 65536 && at < ends.len() {
        ends[at] = end as u32 * STEP + left as u32;
    }
}

// Keeps what was read as the value at a place.
pub(crate) fn note(text: &[u8], ends: &mut [u32], at: usize, left: usize, found: Reading) -> Reading
    requires { (told found ≡ value_at left text.now at) × Ends text.now ends.old }
    ensures { Found (value_at left text.now at) text.now ends.new (told result) }
{
    if let Reading::To(end) = found {
        keep(text, ends, at, left, end);
    }
    found
}

// Reads a name and keeps its end: the string is a value too, which opens no level.
fn label(text: &[u8], ends: &mut [u32], at: usize) -> Result<usize, SyntaxError>
    requires { Ends text.now ends.old }
    ensures { Found (string_at text.now at) text.now ends.new result }
{
    let end = string(text, at)?;
    keep(text, ends, at, 0, end);
    Ok(end)
}

// A member's name and colon, and the place of its value.
#[tactic(auto, unfolding(json_value::specs::Values::name_at))]
pub(crate) fn name(text: &[u8], ends: &mut [u32], at: usize) -> Result<usize, SyntaxError>
    requires { Ends text.now ends.old }
    ensures { Found (name_at text.now at) text.now ends.new result }
{
    let j = label(text, ends, at)?;
    colon(text, j)
}
