// The call for the place of a fault: the number of a text, and for 20 to 26 where the value begins.
ghost use Rattle.json_ends.specs.Inner.Ends.{Ends};
ghost use Rattle.call_definitions.specs.Call.{locate_text};
ghost use Rattle.call_definitions.specs.Results.{Locates};

use crate::whole::open_text;

// The answer of a text, with a table of ends that says nothing yet.
fn locate_in(text: &[u8], ends: &mut [u32], place: &mut u64) -> u32
    requires { Ends text.now ends.old }
    ensures { Locates (locate_text text.now) result place.new }
{
    match open_text(text, ends) {
        Err(refusal) => {
            *place = refusal.place as u64;
            refusal.answer
        }
        Ok(_) => {
            *place = 0;
            0
        }
    }
}

// Most texts are short, and need not clear the room of the longest: the table of ends has as many entries as the text has bytes. A longer text
// than 65,536 bytes is refused.
pub fn locate(text: &[u8], place: &mut u64) -> u32
    ensures { Locates (locate_text text.now) result place.new }
{
    if text.len() <= 2048 {
        let mut ends = [0u32; 2048];
        return locate_in(text, &mut ends, place);
    }
    let mut ends = [0u32; 65536];
    locate_in(text, &mut ends, place)
}
