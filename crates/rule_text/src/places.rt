// The places of the rules of a list, so that each is read when it is its turn.
ghost use Rattle.std.specs.Prelude.{◌<◌, ◌≡◌, length, None};
ghost use Rattle.json_ends.specs.Inner.Ends.{Ends};
ghost use Rattle.rule_text.specs.Inner.Reads.{entries_at, Entries};
ghost use Rattle.rule_text.specs.Inner.Places.{read_place, Places};

use crate::entries::put;
use json_ends::arrays::{first_element, next_element};
use json_text::bytes::byte;

fn place_entries(text: &[u8], ends: &[u32], at: usize, list: &mut [usize]) -> usize
    requires { (at < length text.now) × Ends text.now ends.now }
    ensures { Entries (λ l. entries_at read_place l text.now at) list.old list.new result None }
{
    let mut step = first_element(text, ends, at);
    for count in 0..text.len() {
        let Some(e) = step else {
            return count;
        };
        put(list, count, e.value);
        step = next_element(text, ends, e.after);
    }
    text.len()
}

// The places of the rules of the array at a place, as many as there is room for, and how many there are.
pub fn rule_places(text: &[u8], ends: &[u32], at: usize, list: &mut [usize]) -> usize
    requires { Ends text.now ends.now }
    ensures { Places text.now at list.old list.new result }
{
    if byte(text, at) != 0x5B {
        return 0;
    }
    place_entries(text, ends, at, list)
}
