// A member of an object by its name.
ghost use Rattle.std.specs.Prelude.{◌≡◌, ◌<◌, length};
ghost use Rattle.json_ends.specs.Inner.Ends.{Ends};
ghost use Rattle.json_walk.specs.Walk.{members_of};
ghost use Rattle.json_tree.specs.Inner.Members.{find_in};

use json_ends::objects::{first_member, next_member};
use json_walk::Member;
use json_walk::strings::raw_is;

// The member with this name of the object at a place. One walk over the members serves many names better.
pub fn find(text: &[u8], ends: &[u32], at: usize, word: &[u8]) -> Option<Member>
    requires { (at < length text.now) × Ends text.now ends.now }
    ensures { result ≡ find_in text.now word.now (members_of text.now at) }
{
    let mut step = first_member(text, ends, at);
    for _ in 0..text.len() {
        let m = step?;
        if raw_is(text, m.name, m.stop, word) {
            return Some(m);
        }
        step = next_member(text, ends, m.after);
    }
    None
}
