// A text is opened: 1 to 4 as JSON, then 5 to 9 as an event. Its head is read once.
ghost use Rattle.json_ends.specs.Inner.Ends.{Ends};
ghost use Rattle.opening.specs.Inner.Opens.{Opens};

use crate::Refusal;
use event_text::Head;
use event_text::heads::head;
use event_text::whole::event_first;
use fault::{number_of, place_of};
use json_strict::answer::judge;

// The table of ends says nothing yet, and is filled on the way.
pub fn open_text(text: &[u8], ends: &mut [u32]) -> Result<Head, Refusal>
    requires { Ends text.now ends.old }
    ensures { Opens text.now ends.new result }
{
    let json = judge(text, ends);
    if json != 0 {
        return Err(Refusal {
            answer: json,
            place: 0,
        });
    }
    let event = head(text, ends);
    let first = event_first(text, ends, event);
    let fault = number_of(first);
    if fault != 0 {
        return Err(Refusal {
            answer: fault,
            place: place_of(first),
        });
    }
    Ok(event)
}
