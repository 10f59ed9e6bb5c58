// The times of one occurrence.
ghost use Rattle.std.specs.Prelude.{◌≡◌, length};
ghost use Rattle.json_ends.specs.Inner.Ends.{Ends};
ghost use Rattle.override_text.specs.Inner.Meaning.{details_in};
ghost use Rattle.window.specs.Inner.Sorted.{Ordered};
ghost use Rattle.record.specs.Inner.Utc.{times_of};
ghost use Rattle.writer.specs.Inner.Details.{Passed, details_by, patch_of, patch_times, times_from};
ghost use Rattle.writer.specs.Inner.Writes.{LooksUp};

use crate::Form;
use override_text::Own;
use override_text::patches::patch;
use record::Times;
use window::sorted::below;

// The event's own times, from x on.
fn own_times(own: Own, floating: bool, x: u64) -> Times
    ensures { result ≡ times_from own floating x }
{
    Times {
        start: x,
        days: own.days,
        seconds: own.seconds,
        busy: own.busy,
        allday: own.allday,
        floating,
    }
}

// The times of the occurrence `id` after the patch at a place.
fn patched(text: &[u8], ends: &[u32], at: usize, form: Form, id: u64) -> Times
    requires { Ends text.now ends.now }
    ensures { result ≡ patch_times form.floating (details_in text.now form.own) text.now at id }
{
    let p = patch(text, ends, at, form.own, id);
    Times {
        start: p.start,
        days: p.days,
        seconds: p.seconds,
        busy: p.busy,
        allday: p.allday,
        floating: form.floating,
    }
}

// Where to look for the override of x: none before names it. Ids that increase need no look at all of them.
fn look_from(ids: &[u64], sorted: bool, x: u64) -> usize
    requires { Ordered ids.now sorted }
    ensures { Passed ids.now x result }
{
    if sorted {
        return below(ids, x);
    }
    0
}

// The place of the patch of the first override that names x, where one does.
pub fn patch_of(ids: &[u64], places: &[usize], sorted: bool, x: u64) -> Option<usize>
    requires { Ordered ids.now sorted × (length ids.now ≡ length places.now) }
    ensures { result ≡ patch_of ids.now places.now x }
{
    if ids.is_empty() {
        return None;
    }
    for i in look_from(ids, sorted, x)..ids.len() {
        if ids[i] == x {
            return Some(places[i]);
        }
    }
    None
}

// The times of the occurrence x: after its patch where an override names it, else the event's own from x on.
pub(crate) fn times_at(
    text: &[u8],
    ends: &[u32],
    form: Form,
    ids: &[u64],
    places: &[usize],
    x: u64,
) -> Times
    requires { LooksUp text.now ends.now form ids.now places.now }
    ensures { result ≡ times_of form.floating (details_by text.now (details_in text.now form.own) ids.now places.now x) }
{
    match patch_of(ids, places, form.sorted, x) {
        Some(at) => patched(text, ends, at, form, x),
        None => own_times(form.own, form.floating, x),
    }
}
