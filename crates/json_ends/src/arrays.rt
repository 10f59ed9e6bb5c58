// The elements of an array, with a table of the ends of values.
ghost use Rattle.std.specs.Prelude.{◌≡◌, ◌<◌, length};
ghost use Rattle.json_walk.specs.Walk.{element_at, first_element_at, next_element_at};
ghost use Rattle.json_ends.specs.Inner.Ends.{Ends};

use crate::table::past;
use json_value::items::{after, first};
use json_value::{Item, LEVELS};
use json_walk::Element;

// The element at a place.
#[tactic(auto, unfolding(json_walk::specs::Walk::element_at))]
fn element(text: &[u8], ends: &[u32], at: usize) -> Option<Element>
    requires { Ends text.now ends.now }
    ensures { result ≡ element_at text.now at }
{
    let e = past(text, ends, at, LEVELS).ok()?;
    Some(Element {
        value: at,
        after: e,
    })
}

// The first element of the array whose bracket stands at a place.
#[tactic(auto, unfolding(json_walk::specs::Walk::first_element_at))]
pub fn first_element(text: &[u8], ends: &[u32], at: usize) -> Option<Element>
    requires { (at < length text.now) × Ends text.now ends.now }
    ensures { result ≡ first_element_at text.now at }
{
    match first(text, at + 1, 0x5D) {
        Item::More(k) => element(text, ends, k),
        Item::Done(_) => None,
    }
}

// The element after one that ends at a place.
#[tactic(auto, unfolding(json_walk::specs::Walk::next_element_at))]
pub fn next_element(text: &[u8], ends: &[u32], at: usize) -> Option<Element>
    requires { Ends text.now ends.now }
    ensures { result ≡ next_element_at text.now at }
{
    match after(text, at, 0x5D) {
        Ok(Item::More(k)) => element(text, ends, k),
        _ => None,
    }
}
