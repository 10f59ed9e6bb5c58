// The overrides one by one: their names are date-times, their values patches.
ghost use Rattle.std.specs.Prelude.{if◌then◌else◌, ℕ, suc, [], ◌≡◌, ltb};
ghost use Rattle.fault.specs.Fault.{faults_at, lower as fault_lower, first as fault_first};
ghost use Rattle.json_walk.specs.Walk.{members_of};
ghost use Rattle.json_ends.specs.Inner.Ends.{Ends};
ghost use Rattle.json_tree.specs.Tree.{tree_at};
ghost use Rattle.event.specs.Reading.{limited as reading_limited};
ghost use Rattle.event.specs.Properties.{date_time};
ghost use Rattle.event.specs.Overrides.{override_of, read_overrides};
ghost use Rattle.property.specs.Inner.Words.{word_at};
ghost use Rattle.override_text.specs.Inner.Meaning.{when_in, details_in};
ghost use Rattle.override_text.specs.Inner.Entries.{entries_in};

use crate::judged::patch_fault;
use crate::readings::when;
use crate::{Own, When};
use date_time::local::local;
use fault::{Fault, fault_at, lower};
use json_ends::objects::next_member;
use json_text::bytes::byte;
use property::rows::first;
use property::strings::word;

// The date-time that an override is named by.
#[tactic(auto, unfolding(event::specs::Properties::date_time))]
pub(crate) fn date(text: &[u8], name: usize) -> When
    ensures { when_in result ≡ date_time (word_at text.now name) }
{
    when(local(word(text, name), 9998))
}

// The fault of one override that decides, by the places of its name and its value.
fn entry_fault(text: &[u8], ends: &[u32], name: usize, value: usize, own: Own) -> Option<Fault>
    requires { Ends text.now ends.now }
    ensures { (l : ℕ) → result ≡ fault_first (override_of (details_in text.now own) name (word_at text.now name) (tree_at (suc l) text.now value)).faults }
{
    let id = date(text, name);
    let rest = patch_fault(text, ends, value, own, id.value);
    lower(fault_at(id.fault, name), rest)
}

// More than 256 answer 9 at their object, where no other fault decides.
#[tactic(auto, unfolding(fault::specs::Fault::first, fault::specs::Fault::lower))]
fn limited(fault: Option<Fault>, at: usize, count: usize) -> Option<Fault>
    ensures { result ≡ fault_lower fault (fault_first (if ltb 256 count then faults_at 9 at else [])) }
{
    if 256 < count {
        return lower(fault, fault_at(9, at));
    }
    fault
}

// Of the members of the object at a place, the fault that decides. All are read, also more than there may be. A text has fewer members than bytes.
fn faults(text: &[u8], ends: &[u32], at: usize, own: Own) -> Option<Fault>
    requires { Ends text.now ends.now }
    ensures { (l : ℕ) → result ≡ fault_first (reading_limited 256 at (entries_in l (details_in text.now own) text.now (members_of text.now at))).faults }
{
    let mut found = None;
    let mut next = first(text, ends, at);
    for count in 0..text.len() {
        let Some(m) = next else {
            return limited(found, at, count);
        };
        found = lower(found, entry_fault(text, ends, m.name, m.value, own));
        next = next_member(text, ends, m.after);
    }
    limited(found, at, text.len())
}

// Of the overrides at a place, the fault that decides. A value that is no object answers 20.
pub fn overrides_fault(text: &[u8], ends: &[u32], at: usize, own: Own) -> Option<Fault>
    requires { Ends text.now ends.now }
    ensures { (l : ℕ) → result ≡ fault_first (read_overrides (details_in text.now own) (tree_at (suc (suc l)) text.now at)).faults }
{
    if byte(text, at) == 0x7B {
        return faults(text, ends, at, own);
    }
    fault_at(20, at)
}
