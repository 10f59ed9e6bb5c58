// A member of an object by its name.
ghost use Rattle.std.specs.Prelude.{◌≡◌};
ghost use Rattle.json_ends.specs.Inner.Ends.{Ends};
ghost use Rattle.json_walk.specs.Walk.{members_of};
ghost use Rattle.json_tree.specs.Inner.Members.{find_in};

use json_tree::finds::find;
use json_walk::Member;

// The member with this name of the object at a place. There is none past the end of the text.
pub fn member(text: &[u8], ends: &[u32], at: usize, name: &[u8]) -> Option<Member>
    requires { Ends text.now ends.now }
    ensures { result ≡ find_in text.now name.now (members_of text.now at) }
{
    if at < text.len() {
        return find(text, ends, at, name);
    }
    None
}
