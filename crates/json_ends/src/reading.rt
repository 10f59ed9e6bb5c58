// The cycle: a value may be an array or an object, and these hold values, one level deeper. All ends are kept on the way.
ghost use Rattle.std.specs.Prelude.{◌≡◌, ◌<◌, length};
ghost use Rattle.json_value.specs.Values.{value_at};
ghost use Rattle.json_value.specs.Inner.Groups.{array_at, object_at};
ghost use Rattle.json_ends.specs.Inner.Ends.{Ends};
ghost use Rattle.json_ends.specs.Inner.Found.{Found};
ghost use Rattle.json_ends.specs.Inner.Told.{told};

use crate::keeping::{name, note};
use crate::read::{Reading, reading_of};
use json_text::bytes::byte;
use json_text::words::scalar;
use json_value::Item;
use json_value::items::{after, first};

// The value at a place, where so many levels may still be opened.
#[cycle(array_object_value)]
pub(crate) fn value(text: &[u8], ends: &mut [u32], at: usize, left: usize) -> Reading
    requires { Ends text.now ends.old }
    ensures { Found (value_at left text.now at) text.now ends.new (told result) }
{
    let b = byte(text, at);
    if b == 0x7B {
        let found = object(text, ends, at, left);
        return note(text, ends, at, left, found);
    }
    if b == 0x5B {
        let found = array(text, ends, at, left);
        return note(text, ends, at, left, found);
    }
    let found = reading_of(scalar(text, at));
    note(text, ends, at, left, found)
}

// The array whose bracket stands at a place. It has fewer elements than the text has bytes.
#[cycle(array_object_value)]
fn array(text: &[u8], ends: &mut [u32], at: usize, left: usize) -> Reading
    requires { (at < length text.now) × Ends text.now ends.old }
    ensures { Found (array_at left text.now at) text.now ends.new (told result) }
{
    if left == 0 {
        return Reading::Deep;
    }
    let mut i = match first(text, at + 1, 0x5D) {
        Item::More(k) => k,
        Item::Done(e) => return Reading::To(e),
    };
    for _ in 0..text.len() {
        let j = match value(text, ends, i, left - 1) {
            Reading::To(j) => j,
            wrong => return wrong,
        };
        match after(text, j, 0x5D) {
            Ok(Item::More(k)) => i = k,
            Ok(Item::Done(e)) => return Reading::To(e),
            Err(e) => return reading_of(Err(e)),
        }
    }
    Reading::Bad
}

// The object whose bracket stands at a place.
#[cycle(array_object_value)]
fn object(text: &[u8], ends: &mut [u32], at: usize, left: usize) -> Reading
    requires { (at < length text.now) × Ends text.now ends.old }
    ensures { Found (object_at left text.now at) text.now ends.new (told result) }
{
    if left == 0 {
        return Reading::Deep;
    }
    let mut i = match first(text, at + 1, 0x7D) {
        Item::More(k) => k,
        Item::Done(e) => return Reading::To(e),
    };
    for _ in 0..text.len() {
        let v = match name(text, ends, i) {
            Ok(v) => v,
            Err(e) => return reading_of(Err(e)),
        };
        let j = match value(text, ends, v, left - 1) {
            Reading::To(j) => j,
            wrong => return wrong,
        };
        match after(text, j, 0x7D) {
            Ok(Item::More(k)) => i = k,
            Ok(Item::Done(e)) => return Reading::To(e),
            Err(e) => return reading_of(Err(e)),
        }
    }
    Reading::Bad
}
