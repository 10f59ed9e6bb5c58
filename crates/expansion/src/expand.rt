// The expansion of an event: whatever arrives, one answer, the table's length, and the table or an untouched buffer.
ghost use Rattle.json_ends.specs.Inner.Ends.{Ends};
ghost use Rattle.call_definitions.specs.Call.{expand_text};
ghost use Rattle.call_definitions.specs.Results.{zones_of, Gives};

use crate::visible::put_visible;
use opening::calls::{call_fault, is_secret};
use opening::whole::open_text;
use record::window::since_1600;
use window::Window;
use writer::Done;
use writer::nothing::put_trailer_alone;

// 10 to 12 are found before the lists are read; a secret event shows none of them. The table of ends says nothing yet.
pub fn expand_in(
    text: &[u8],
    ends: &mut [u32],
    name: &[u8],
    initial: i64,
    instants: &[i64],
    offsets: &[i64],
    from: i64,
    to: i64,
    buffer: &mut [u8],
) -> Done
    requires { Ends text.now ends.old }
    ensures { Gives (expand_text (zones_of name.now initial instants.now offsets.now) text.now from to buffer.old) result.answer result.length buffer.new }
{
    match open_text(text, ends) {
        Err(refusal) => Done {
            answer: refusal.answer,
            length: 0,
        },
        Ok(head) => {
            let answer = call_fault(text, head, name, initial, instants, offsets, from, to);
            if answer != 0 {
                return Done { answer, length: 0 };
            }
            if is_secret(head.privacy) {
                return put_trailer_alone(buffer);
            }
            let window = Window {
                from: since_1600(from),
                to: since_1600(to),
            };
            put_visible(text, ends, head, initial, instants, offsets, window, buffer)
        }
    }
}
