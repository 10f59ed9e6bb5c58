// Members that are judged and not kept: which of them make the text an event, and the faults of the others.
ghost use Rattle.std.specs.Prelude.{ℕ, true, [], ◌≡◌};
ghost use Rattle.fault.specs.Fault.{first as fault_first};
ghost use Rattle.json_ends.specs.Inner.Ends.{Ends};
ghost use Rattle.json_tree.specs.Tree.{tree_at};
ghost use Rattle.json_text.specs.Ascii.{ascii};
ghost use Rattle.event.specs.Event.{missing, no_event};
ghost use Rattle.event.specs.Properties.{read_uid, read_updated};
ghost use Rattle.event.specs.Reading.{required, unsupported};
ghost use Rattle.event.specs.Values.{string, member, is_text, is_type};
ghost use Rattle.property.specs.Inner.From.{fields_in};
ghost use Rattle.property.specs.Inner.Rows.{RowTo};

use fault::{Fault, fault_at};
use json_text::bytes::byte;
use property::dates::read_updated;
use property::members::member;
use property::names::read_uid;
use property::rows::place;
use property::strings::word;
use property::vocabulary::{RECURRENCE_ID, UID, UPDATED};

// The fault of `uid`, 0 where there is none.
pub(crate) fn uid_fault(text: &[u8], at: usize, row: &[usize]) -> u32
    requires { RowTo 18 text.now at row.now }
    ensures { (l : ℕ) → result ≡ (required [] read_uid (member (ascii "uid") (fields_in l text.now at))).fault }
{
    match place(text, at, row, UID) {
        Some(i) => read_uid(text, i),
        None => 26,
    }
}

// The fault of `updated`, 0 where there is none.
pub(crate) fn updated_fault(text: &[u8], at: usize, row: &[usize]) -> u32
    requires { RowTo 18 text.now at row.now }
    ensures { (l : ℕ) → result ≡ (required true read_updated (member (ascii "updated") (fields_in l text.now at))).fault }
{
    match place(text, at, row, UPDATED) {
        Some(i) => read_updated(text, i),
        None => 26,
    }
}

// 8 where there is a `recurrenceId`, at its value.
pub(crate) fn id_fault(text: &[u8], at: usize, row: &[usize]) -> Option<Fault>
    requires { RowTo 18 text.now at row.now }
    ensures { (l : ℕ) → result ≡ fault_first (unsupported (member (ascii "recurrenceId") (fields_in l text.now at))) }
{
    fault_at(8, place(text, at, row, RECURRENCE_ID)?)
}

// Is the value at a place the string `Event`?
fn is_type(text: &[u8], at: usize) -> bool
    ensures { (l : ℕ) → result ≡ is_text (ascii "Event") (string (tree_at l text.now at)) }
{
    byte(text, at) == 0x22 && keywords::types::is_event(word(text, at))
}

fn is_event(text: &[u8], ends: &[u32], at: usize) -> bool
    requires { Ends text.now ends.now }
    ensures { (l : ℕ) → result ≡ is_type (ascii "Event") (member (ascii "@type") (fields_in l text.now at)) }
{
    member(text, ends, at, b"@type").is_some_and(|m| is_type(text, m.value))
}

fn is_missing(text: &[u8], ends: &[u32], at: usize, name: &[u8]) -> bool
    requires { Ends text.now ends.now }
    ensures { (l : ℕ) → result ≡ missing (member name.now (fields_in l text.now at)) }
{
    member(text, ends, at, name).is_none()
}

// Does 5 apply to the object at a place?
#[tactic(auto, unfolding(event::specs::Event::no_event))]
pub(crate) fn no_event(text: &[u8], ends: &[u32], at: usize) -> bool
    requires { Ends text.now ends.now }
    ensures { (l : ℕ) → result ≡ no_event (fields_in l text.now at) }
{
    !is_event(text, ends, at)
        || is_missing(text, ends, at, b"uid")
        || is_missing(text, ends, at, b"updated")
        || is_missing(text, ends, at, b"start")
}
