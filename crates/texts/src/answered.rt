// What a call for a text answers: 1 to 9, or the part that is asked for.
ghost use Rattle.std.specs.Prelude.{◌≡◌, length};
ghost use Rattle.json_ends.specs.Inner.Ends.{Ends};
ghost use Rattle.call_definitions.specs.Call.{text_of, no_place};
ghost use Rattle.texts.specs.Inner.Shown.{told_shown, lookup_shown, Placed, chosen};

use crate::events::look_up;
use crate::{Part, Told};
use opening::whole::open_text;

// A number without a text.
fn refused(answer: u32) -> Told
    ensures { told_shown result ≡ no_place answer }
{
    Told {
        answer,
        start: 0,
        length: 0,
    }
}

// "A date asked that is no occurrence answers 14."
fn told_of(found: Option<Part>) -> Told
    ensures { told_shown result ≡ lookup_shown found }
{
    let Some(part) = found else {
        return refused(14);
    };
    Told {
        answer: 0,
        start: part.start,
        length: part.length,
    }
}

// The answer of a text, with a table of ends that says nothing yet.
fn told_in(text: &[u8], ends: &mut [u32], title: bool, date: i64) -> Told
    requires { Ends text.now ends.old }
    ensures { Placed (length text.now) (text_of (chosen title) text.now date) (told_shown result) }
{
    match open_text(text, ends) {
        Err(refusal) => refused(refusal.answer),
        Ok(head) => told_of(look_up(text, ends, head, title, date)),
    }
}

// Most texts are short, and need not clear the room of the longest: the table of ends has as many entries as the text has bytes. A longer text
// than 65,536 bytes is refused.
pub(crate) fn told(text: &[u8], title: bool, date: i64) -> Told
    ensures { Placed (length text.now) (text_of (chosen title) text.now date) (told_shown result) }
{
    if text.len() <= 2048 {
        let mut ends = [0u32; 2048];
        return told_in(text, &mut ends, title, date);
    }
    let mut ends = [0u32; 65536];
    told_in(text, &mut ends, title, date)
}
