// Reads the event texts of its input, each with byte 0x1E after it, and writes for each the number that is given and its place, each 0 where there
// is none, and what is read of an accepted event. The input comes in blocks of 262,144 bytes; a text does not go over from one to the next.
#![tactic(auto)]

use std::io;
use std::io::Read;

mod events;
mod print;
mod rules;

// What ends a text.
const MARK: u8 = 0x1E;

const BLOCK: u64 = 262144;

// Reads each text that ends in the block.
fn read_all(rt: &impl Print, all: &[u8]) -> io::Result<()> {
    let mut rest = all;
    while let Some(end) = rest.iter().position(|b| *b == MARK) {
        events::event(rt, &rest[..end])?;
        rest = &rest[end + 1..];
    }
    Ok(())
}

// Reads the texts of one block of the input; says whether there was one.
fn read_block(rt: &(impl Print + Input + Alloc)) -> io::Result<bool> {
    let mut block = Vec::new(rt.alloc());
    let n = rt.reader().take(BLOCK).read_to_end(&mut block)?;
    read_all(rt, &block)?;
    Ok(0 < n)
}

fn main(rt: HostRuntime) -> io::Result<()> {
    for _ in 0..4 {
        if !read_block(&rt)? {
            return Ok(());
        }
    }
    Ok(())
}
