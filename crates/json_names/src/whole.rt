// The names of a whole text.
ghost use Rattle.std.specs.Prelude.{◌≡◌, ◌≤◌, length};
ghost use Rattle.json_ends.specs.Inner.Ends.{Ends};
ghost use Rattle.json_text.specs.Bytes.{space_at};
ghost use Rattle.json_value.specs.Values.{levels};
ghost use Rattle.json_names.specs.Inner.Names.{fault_at};
ghost use Rattle.json_names.specs.Inner.Room.{Room};

use crate::faults::fault;
use crate::slashes::slash_free;
use json_text::bytes::space;
use json_value::LEVELS;

// Is a name in the value at a place at fault? With a table of ends, which the walks look into: so each object is gone over
// a few times, however deep it lies; and with room to sort N names. An object of more names has its answer too, in more time.
fn fault_in<const N: usize>(text: &[u8], ends: &[u32], at: usize) -> bool
    requires { (N ≤ 65536) × Ends text.now ends.now }
    ensures { result ≡ fault_at levels text.now at }
{
    let mut order = [0u64; N];
    let mut spare = [0u64; N];
    let clean = slash_free(text);
    fault(text, ends, at, LEVELS, clean, 0, &mut order, &mut spare)
}

// Is a name of the text at fault? A member takes five bytes at least, so a text of 2,048 bytes has 409 names at most, and one
// of 65,536 bytes 13,107. Most texts are short, and need not clear the room of the longest.
pub fn text_fault(text: &[u8], ends: &[u32]) -> bool
    requires { Ends text.now ends.now }
    ensures { result ≡ fault_at levels text.now (space_at text.now 0) }
{
    let at = space(text, 0);
    if text.len() <= 2048 {
        return fault_in::<409>(text, ends, at);
    }
    fault_in::<13107>(text, ends, at)
}
