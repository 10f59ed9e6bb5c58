// The fault of a text that decides: 5, or one of its own.
ghost use Rattle.std.specs.Prelude.{[], ◌≡◌};
ghost use Rattle.fault.specs.Fault.{first as fault_first};
ghost use Rattle.json_ends.specs.Inner.Ends.{Ends};
ghost use Rattle.property.specs.Inner.From.{value_in};
ghost use Rattle.event.specs.Event.{event_first};
ghost use Rattle.event.specs.Overrides.{read_overrides};
ghost use Rattle.event.specs.Reading.{present};
ghost use Rattle.event.specs.Rules.{read_rules};
ghost use Rattle.event_text.specs.Inner.Front.{inner, front_of, lists_faults};
ghost use Rattle.event_text.specs.Inner.Held.{from_head};

use crate::Head;
use crate::heads::own_of;
use crate::judged::no_event;
use fault::{Fault, fault_at, lower};
use json_text::bytes::{byte, space};
use override_text::entries::overrides_fault;
use rule_text::rules::rules_fault;

// What an object begins with.
const BRACE: u8 = 0x7B;

// Of a list of rules, which may be absent, the fault that decides.
fn rules_at(text: &[u8], ends: &[u32], place: Option<usize>) -> Option<Fault>
    requires { Ends text.now ends.now }
    ensures { result ≡ fault_first (present [] read_rules (value_in inner text.now place)).faults }
{
    let at = place?;
    rules_fault(text, ends, at)
}

// Of the overrides, which may be absent, the fault that decides.
fn overrides_at(text: &[u8], ends: &[u32], head: Head) -> Option<Fault>
    requires { Ends text.now ends.now }
    ensures { result ≡ fault_first (present [] (read_overrides (from_head inner text.now head).details) (from_head inner text.now head).overrides).faults }
{
    let at = head.overrides?;
    overrides_fault(text, ends, at, own_of(head))
}

// Of the three lists of an event, the fault that decides.
fn lists_fault(text: &[u8], ends: &[u32], head: Head) -> Option<Fault>
    requires { Ends text.now ends.now }
    ensures { result ≡ fault_first (lists_faults (from_head inner text.now head)) }
{
    let kept = rules_at(text, ends, head.rules);
    let left = rules_at(text, ends, head.excluded);
    let patched = overrides_at(text, ends, head);
    lower(kept, lower(left, patched))
}

// The fault that decides, with its place. The head is that of the text, which callers go on with. Where 5 applies, nothing else is judged.
pub fn event_first(text: &[u8], ends: &[u32], head: Head) -> Option<Fault>
    requires { Ends text.now ends.now × (from_head inner text.now head ≡ front_of text.now) }
    ensures { result ≡ event_first text.now }
{
    let at = space(text, 0);
    if byte(text, at) != BRACE || no_event(text, ends, at) {
        return fault_at(5, 0);
    }
    lower(head.fault, lists_fault(text, ends, head))
}
