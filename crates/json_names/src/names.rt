// The names of one object.
ghost use Rattle.std.specs.Prelude.{◌≡◌, ◌<◌, length};
ghost use Rattle.json_ends.specs.Inner.Ends.{Ends};
ghost use Rattle.json_walk.specs.Walk.{members_from, members_of, next_member_at};
ghost use Rattle.json_walk.specs.Strings.{raw_at};
ghost use Rattle.json_names.specs.Inner.Names.{named, repeats};

use json_ends::objects::{first_member, next_member};
use json_walk::strings::same_raw;

// Has one of the next n members, after a place, the name that stands from `name` to `stop`?
pub(crate) fn among(
    text: &[u8],
    ends: &[u32],
    name: usize,
    stop: usize,
    at: usize,
    count: usize,
) -> bool
    requires { Ends text.now ends.now }
    ensures { result ≡ named text.now (raw_at text.now name stop) (members_from count text.now (next_member_at text.now at)) }
{
    let mut step = next_member(text, ends, at);
    for _ in 0..count {
        let Some(m) = step else {
            return false;
        };
        if same_raw(text, name, stop, m.name, m.stop) {
            return true;
        }
        step = next_member(text, ends, m.after);
    }
    false
}

// Have two members equal names? Each name is compared with those after it.
pub(crate) fn repeated(text: &[u8], ends: &[u32], at: usize) -> bool
    requires { (at < length text.now) × Ends text.now ends.now }
    ensures { result ≡ repeats text.now (members_of text.now at) }
{
    let mut step = first_member(text, ends, at);
    for i in 0..text.len() {
        let Some(m) = step else {
            return false;
        };
        if among(text, ends, m.name, m.stop, m.after, text.len() - (i + 1)) {
            return true;
        }
        step = next_member(text, ends, m.after);
    }
    false
}
