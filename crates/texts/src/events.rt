// The look-up of a text in an accepted event, whose head was read.
ghost use Rattle.std.proofs.Math.Option.{some};
ghost use Rattle.std.specs.Prelude.{length};
ghost use Rattle.event.specs.Event.{event_of};
ghost use Rattle.event_text.specs.Inner.Taken.{Taken};
ghost use Rattle.call_definitions.specs.Occurrence.{is_occurrence, details_at};
ghost use Rattle.call_definitions.specs.Answer.{date_time_of};
ghost use Rattle.call_definitions.specs.Call.{place_of, shown_at};
ghost use Rattle.texts.specs.Inner.Dated.{Dated};
ghost use Rattle.texts.specs.Inner.Shown.{lookup_shown, Placed, chosen, shown_by};

use crate::Part;
use crate::parts::part_at;
use crate::patched::text_by;
use crate::visible::visible;
use event_text::Head;
use loading::whole::load;
use matcher::layout::LISTS;
use opening::calls::{is_public, is_secret};
use record::window::since_1600;
use source::single::is_id;

// The first second of 1601, from 1600-01-01T00:00:00.
const FIRST: u64 = 31622400;

// The second after 9998.
const END: u64 = 265046860800;

// What the call keeps of the event is loaded up to the day of the date: days after it are not asked for.
fn look_up_event(
    text: &[u8],
    ends: &[u32],
    title: bool,
    public: bool,
    head: Head,
    x: u64,
) -> Option<Part>
    requires { Dated text.now ends.now head x }
    ensures { Placed (length text.now) (shown_by public (is_occurrence (event_of text.now) x) (place_of (chosen title (details_at (event_of text.now) x)))) (lookup_shown result) }
{
    let limit = (x / 86400) as u32 + 1;
    let mut rows = [false; LISTS];
    let mut ids = [0u64; 256];
    let mut gone = [false; 256];
    let mut places = [0usize; 256];
    let kept = load(
        text,
        ends,
        head,
        limit,
        &mut rows,
        &mut ids,
        &mut gone,
        &mut places,
    );
    let n = kept.count;
    if !is_id(kept.dates, &rows, &ids[..n], &gone[..n], x) {
        return None;
    }
    let place = text_by(text, ends, title, kept.form.own, &ids[..n], &places[..n], x);
    Some(visible(public, part_at(text, place)))
}

// A secret event tells of no occurrence. None: the date is no occurrence that may be told of.
fn look_up_at(text: &[u8], ends: &[u32], title: bool, head: Head, x: u64) -> Option<Part>
    requires { Dated text.now ends.now head x }
    ensures { Placed (length text.now) (shown_at (chosen title) (event_of text.now) (some x)) (lookup_shown result) }
{
    if is_secret(head.privacy) {
        return None;
    }
    look_up_event(text, ends, title, is_public(head.privacy), head, x)
}

// No occurrence of an accepted event lies outside the years 1601 to 9998.
pub(crate) fn look_up(text: &[u8], ends: &[u32], head: Head, title: bool, date: i64) -> Option<Part>
    requires { Taken text.now ends.now head }
    ensures { Placed (length text.now) (shown_at (chosen title) (event_of text.now) (date_time_of date)) (lookup_shown result) }
{
    let x = since_1600(date);
    if x < FIRST || END <= x {
        return None;
    }
    look_up_at(text, ends, title, head, x)
}
