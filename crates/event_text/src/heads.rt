// The head of an event: all but its lists.
ghost use Rattle.std.specs.Prelude.{ℕ, List, ◌≡◌};
ghost use Rattle.json_ends.specs.Inner.Ends.{Ends};
ghost use Rattle.property.specs.Inner.From.{fields_in};
ghost use Rattle.property.specs.Inner.Rows.{RowTo};
ghost use Rattle.override_text.specs.Inner.Meaning.{details_in};
ghost use Rattle.event_text.specs.Inner.Held.{from_head};
ghost use Rattle.event_text.specs.Inner.Front.{front_in, front_of, inner};

use crate::Head;
use crate::judged::{id_fault, uid_fault, updated_fault};
use crate::marks::privacy;
use crate::own::own_details;
use crate::spots::zone;
use fault::lower;
use json_text::bytes::{byte, space};
use override_text::Own;
use property::rows::{fault_in, fill, place};
use property::vocabulary::{EXCLUDED_RULES, OVERRIDES, PRIVACY, RULES, UID, UPDATED, ZONE};

// The head of the object at a place, with the row of its members.
fn head_by(text: &[u8], at: usize, row: &[usize]) -> Head
    requires { RowTo 18 text.now at row.now }
    ensures { (l : ℕ) → from_head l text.now result ≡ front_in at (fields_in l text.now at) }
{
    let zone = zone(text, at, row);
    let access = privacy(text, at, row);
    let own = own_details(text, at, row);
    let rules = place(text, at, row, RULES);
    let excluded = place(text, at, row, EXCLUDED_RULES);
    let overrides = place(text, at, row, OVERRIDES);
    let uid = fault_in(text, at, row, UID, uid_fault(text, at, row));
    let updated = fault_in(text, at, row, UPDATED, updated_fault(text, at, row));
    let named = fault_in(text, at, row, ZONE, zone.fault);
    let shown = fault_in(text, at, row, PRIVACY, access.fault);
    let rest = lower(own.fault, id_fault(text, at, row));
    let fault = lower(uid, lower(updated, lower(named, lower(shown, rest))));
    Head {
        zone: zone.place,
        privacy: access.privacy,
        start: own.start,
        days: own.days,
        seconds: own.seconds,
        busy: own.busy,
        allday: own.allday,
        title: own.title,
        description: own.description,
        rules,
        excluded,
        overrides,
        fault,
    }
}

// The head of the object at a place.
fn head_at(text: &[u8], ends: &[u32], at: usize) -> Head
    requires { Ends text.now ends.now }
    ensures { (l : ℕ) → from_head l text.now result ≡ front_in at (fields_in l text.now at) }
{
    let mut row = [0usize; 18];
    fill(text, ends, at, &mut row);
    head_by(text, at, &row)
}

// The head of the event of a text. A value that is no object has no members; the end of the text has none either.
pub fn head(text: &[u8], ends: &[u32]) -> Head
    requires { Ends text.now ends.now }
    ensures { from_head inner text.now result ≡ front_of text.now }
{
    let at = space(text, 0);
    if byte(text, at) != 0x7B {
        return head_at(text, ends, text.len());
    }
    head_at(text, ends, at)
}

// The details of a head, which patches change.
pub fn own_of(head: Head) -> Own
    ensures { (s : List ℕ) → details_in s result ≡ (from_head inner s head).details }
{
    Own {
        start: head.start,
        days: head.days,
        seconds: head.seconds,
        busy: head.busy,
        allday: head.allday,
        title: head.title,
        description: head.description,
    }
}
