// What stands between values: commas, colons and brackets, with the white space around them.
ghost use Rattle.std.specs.Prelude.{◌≡◌, ◌<◌};
ghost use Rattle.json_value.specs.Values.{after_at, first_at, colon_at};

use crate::Item;
use json_text::SyntaxError;
use json_text::bytes::{byte, space};

// After an item: a comma and the next item, or the closing bracket.
#[tactic(auto, unfolding(crate::specs::Values::after_at))]
pub fn after(text: &[u8], at: usize, close: u8) -> Result<Item, SyntaxError>
    requires { 0 < close }
    ensures { result ≡ after_at close text.now at }
{
    let k = space(text, at);
    let b = byte(text, k);
    if b == 0x2C {
        return Ok(Item::More(space(text, k + 1)));
    }
    if b == close {
        return Ok(Item::Done(k + 1));
    }
    Err(SyntaxError::Malformed)
}

// After an opening bracket: the closing one, or the first item.
#[tactic(auto, unfolding(crate::specs::Values::first_at))]
pub fn first(text: &[u8], at: usize, close: u8) -> Item
    requires { 0 < close }
    ensures { result ≡ first_at close text.now at }
{
    let k = space(text, at);
    if byte(text, k) == close {
        return Item::Done(k + 1);
    }
    Item::More(k)
}

// The colon after a name, and the place of the value.
#[tactic(auto, unfolding(crate::specs::Values::colon_at))]
pub fn colon(text: &[u8], at: usize) -> Result<usize, SyntaxError>
    ensures { result ≡ colon_at text.now at }
{
    let k = space(text, at);
    if byte(text, k) == 0x3A {
        return Ok(space(text, k + 1));
    }
    Err(SyntaxError::Malformed)
}
