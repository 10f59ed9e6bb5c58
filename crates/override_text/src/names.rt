// The names of a patch's members: which of them no patch may have, and whether there is more than one.
ghost use Rattle.std.specs.Prelude.{◌||◌, ◌≡◌, eqb};
ghost use Rattle.std.specs.List.{list_any};
ghost use Rattle.fault.specs.Fault.{first as fault_first};
ghost use Rattle.json_walk.specs.Walk.{members_of};
ghost use Rattle.json_walk.specs.Strings.{bytes_at, raw_at};
ghost use Rattle.json_ends.specs.Inner.Ends.{Ends};
ghost use Rattle.event.specs.Overrides.{has_mark, name_fault};
ghost use Rattle.override_text.specs.Inner.Names.{lowest, of_name, single};

use fault::{Fault, fault_at, lower};
use json_ends::objects::next_member;
use json_text::bytes::byte;
use json_walk::strings::{inside, raw_is, step};
use property::rows::first;

// Is one of the bytes `/` or `~`?
fn is_marked(raw: &[u8]) -> bool
    ensures { result ≡ list_any (λ b. eqb b 0x2F || eqb b 0x7E) raw.now }
{
    raw.iter().any(|b| matches!(*b, b'/' | b'~'))
}

// Is one of the bytes between the quotes of a name `/` or `~`?
fn has_mark(text: &[u8], name: usize, stop: usize) -> bool
    ensures { result ≡ has_mark (raw_at text.now name stop) }
{
    let rest = &text[step(text, name).min(text.len())..];
    is_marked(&rest[..inside(name, stop).min(rest.len())])
}

// The fault of one name, at its opening quote.
#[tactic(auto, unfolding(event::specs::Overrides::name_fault, fault::specs::Fault::first))]
fn name_fault(text: &[u8], name: usize, stop: usize) -> Option<Fault>
    ensures { result ≡ fault_first (name_fault name (raw_at text.now name stop)) }
{
    if raw_is(text, name, stop, b"timeZone") || has_mark(text, name, stop) {
        return fault_at(8, name);
    }
    None
}

// Of the names of the object at a place, the fault that decides.
pub(crate) fn names_fault(text: &[u8], ends: &[u32], at: usize) -> Option<Fault>
    requires { Ends text.now ends.now }
    ensures { result ≡ lowest (of_name text.now) (members_of text.now at) }
{
    let mut found = None;
    let mut next = first(text, ends, at);
    for _ in 0..text.len() {
        let Some(m) = next else {
            return found;
        };
        found = lower(found, name_fault(text, m.name, m.stop));
        next = next_member(text, ends, m.after);
    }
    found
}

// Has the object at a place no two members? A text that has two has two bytes.
pub(crate) fn alone(text: &[u8], ends: &[u32], at: usize) -> bool
    requires { Ends text.now ends.now }
    ensures { result ≡ single (members_of text.now at) }
{
    if text.len() < 2 {
        return true;
    }
    let Some(m) = first(text, ends, at) else {
        return true;
    };
    next_member(text, ends, m.after).is_none()
}
