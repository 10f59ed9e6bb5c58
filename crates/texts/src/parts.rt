// The part of the text that the string at a place has between its quotes.
ghost use Rattle.std.specs.Prelude.{◌≡◌, ◌+◌, ◌-◌, ◌≤◌, length};
ghost use Rattle.property.specs.Inner.From.{text_in};
ghost use Rattle.property.specs.Inner.Words.{word_at};
ghost use Rattle.call_definitions.specs.Call.{place_from, place_of};
ghost use Rattle.texts.specs.Inner.Shown.{part_shown, spanned, Placed};

use crate::Part;
use json_text::strings::string;

// The bytes from one place to before another.
fn between(from: usize, to: usize) -> Part
    requires { from ≤ to }
    ensures { part_shown result ≡ spanned from (to - from) }
{
    let length = to - from;
    if length == 0 {
        return Part {
            start: 0,
            length: 0,
        };
    }
    Part {
        start: from,
        length,
    }
}

// The bytes between the quotes of the string at a place.
fn part_from(text: &[u8], at: usize) -> Part
    ensures { Placed (length text.now) (place_from (at + 1) (word_at text.now at)) (part_shown result) }
{
    match string(text, at) {
        Ok(stop) => between(at + 1, stop - 1),
        Err(_) => between(0, 0),
    }
}

// The same for a string that may be absent.
pub(crate) fn part_at(text: &[u8], place: Option<usize>) -> Part
    ensures { Placed (length text.now) (place_of (text_in text.now place)) (part_shown result) }
{
    match place {
        None => between(0, 0),
        Some(at) => part_from(text, at),
    }
}
