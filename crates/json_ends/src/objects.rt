// The members of an object, with a table of the ends of names and values.
ghost use Rattle.std.specs.Prelude.{◌≡◌, ◌<◌, length};
ghost use Rattle.json_walk.specs.Walk.{member_at, first_member_at, next_member_at};
ghost use Rattle.json_ends.specs.Inner.Ends.{Ends};

use crate::table::{past, string_past};
use json_value::items::{after, colon, first};
use json_value::{Item, LEVELS};
use json_walk::Member;

// The member whose name stands at a place.
#[tactic(auto, unfolding(json_walk::specs::Walk::member_at))]
fn member(text: &[u8], ends: &[u32], at: usize) -> Option<Member>
    requires { Ends text.now ends.now }
    ensures { result ≡ member_at text.now at }
{
    let j = string_past(text, ends, at).ok()?;
    let v = colon(text, j).ok()?;
    let e = past(text, ends, v, LEVELS).ok()?;
    Some(Member {
        name: at,
        stop: j,
        value: v,
        after: e,
    })
}

// The first member of the object whose bracket stands at a place.
#[tactic(auto, unfolding(json_walk::specs::Walk::first_member_at))]
pub fn first_member(text: &[u8], ends: &[u32], at: usize) -> Option<Member>
    requires { (at < length text.now) × Ends text.now ends.now }
    ensures { result ≡ first_member_at text.now at }
{
    match first(text, at + 1, 0x7D) {
        Item::More(k) => member(text, ends, k),
        Item::Done(_) => None,
    }
}

// The member after one whose value ends at a place.
#[tactic(auto, unfolding(json_walk::specs::Walk::next_member_at))]
pub fn next_member(text: &[u8], ends: &[u32], at: usize) -> Option<Member>
    requires { Ends text.now ends.now }
    ensures { result ≡ next_member_at text.now at }
{
    match after(text, at, 0x7D) {
        Ok(Item::More(k)) => member(text, ends, k),
        _ => None,
    }
}
