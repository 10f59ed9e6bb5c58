// Judges the JSON texts of its input, which byte 0x1E parts as in RFC 7464, and writes the answer of each, a line each.
// The input comes in blocks of 262,144 bytes; a text does not go over from one to the next.
#![tactic(auto)]

ghost use Rattle.std.specs.Prelude.{◌≤◌, length};

use std::io;
use std::io::Read;

// What parts the texts.
const MARK: u8 = 0x1E;

const BLOCK: u64 = 262144;

// The end of the text that begins at a place.
fn text_end(all: &[u8], from: usize) -> usize
    requires { from ≤ length all.now }
    ensures { (from ≤ result) × (result ≤ length all.now) }
{
    for i in from..all.len() {
        if all[i] == MARK {
            return i;
        }
    }
    all.len()
}

fn judge_all(rt: &impl Print, all: &[u8]) -> io::Result<()> {
    let mut from = 0;
    while from < all.len() {
        let end = text_end(all, from);
        let answer = json_strict::answer::answer(&all[from..end]);
        println!(rt; "{answer}")?;
        if end == all.len() {
            return Ok(());
        }
        from = end + 1;
    }
    Ok(())
}

// Judges the texts of one block of the input; says whether there was one.
fn judge_block(rt: &(impl Print + Input + Alloc)) -> io::Result<bool> {
    let mut block = Vec::new(rt.alloc());
    let n = rt.reader().take(BLOCK).read_to_end(&mut block)?;
    judge_all(rt, &block)?;
    Ok(0 < n)
}

fn main(rt: HostRuntime) -> io::Result<()> {
    for _ in 0..4 {
        if !judge_block(&rt)? {
            return Ok(());
        }
    }
    Ok(())
}
