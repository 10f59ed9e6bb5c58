// Reads the cases of its input and writes what the whole calls give for each: the answer and the place of the call for places, then of the call for
// the table the answer, the length, the table in hexadecimal digits, and how many bytes of the buffer changed that are none of the table's. A case
// is four numbers, each with a space after it (the zone table's number, the window's ends as seconds from 1600, the buffer's length), and an event's
// text with byte 0x1E after it.
#![tactic(auto)]

ghost use Rattle.std.specs.Prelude.{◌≤◌, length};

use std::io;
use std::io::Read;

mod calls;
mod numbers;
mod print;
mod zones;

// What ends a text.
const MARK: u8 = 0x1E;

// The input is read as far as this.
const LONGEST: u64 = 524288;

// The end of the text that begins at a place.
fn text_end(all: &[u8], from: usize) -> usize
    requires { from ≤ length all.now }
    ensures { (from ≤ result) × (result ≤ length all.now) }
{
    match all[from..].iter().position(|b| *b == MARK) {
        Some(n) => from + n,
        None => all.len(),
    }
}

fn read_all(rt: &impl Print, all: &[u8]) -> io::Result<()> {
    let mut at = 0;
    // No for: a case begins where the text of the one before ends.
    while at < all.len() {
        let zone = numbers::number_at(all, at);
        let from = numbers::number_at(all, zone.next);
        let to = numbers::number_at(all, from.next);
        let room = numbers::number_at(all, to.next);
        let text = room.next;
        let end = text_end(all, text);
        if end == all.len() {
            return Ok(());
        }
        calls::call(
            rt,
            &all[text..end],
            zone.value,
            from.value,
            to.value,
            room.value,
        )?;
        at = end + 1;
    }
    Ok(())
}

fn main(rt: HostRuntime) -> io::Result<()> {
    let mut input = Vec::new(rt.alloc());
    rt.reader().take(LONGEST).read_to_end(&mut input)?;
    read_all(&rt, &input)
}
