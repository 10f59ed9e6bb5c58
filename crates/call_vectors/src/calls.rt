// One case.
ghost use Rattle.std.specs.Prelude.{◌≤◌, ◌<◌, ◌^◌, length};

use crate::print::hexadecimal;
use crate::zones::{Zone, numbered};
use record::window::since_1970;
use smocurant::by_numbers::smocurant_expand;
use smocurant::places::smocurant_locate;
use std::io;

// The answer for a text alone, and the place. The call writes the place, whatever stood there.
fn locate(rt: &impl Print, text: &[u8]) -> io::Result<()> {
    let mut place: u64 = 999999;
    let answer = smocurant_locate(text, &mut place);
    print!(rt; "{answer} {place} ")
}

// How many bytes from a place on are not what they were: 0.
fn changed(buffer: &[u8], from: usize) -> u64
    requires { from ≤ length buffer.now }
{
    buffer[from..].iter().filter(|b| **b != 0).count() as u64
}

fn show(rt: &impl Print, answer: u32, size: u64, buffer: &[u8]) -> io::Result<()> {
    print!(rt; "{answer} {size} ")?;
    if size <= buffer.len() as u64 {
        let end = size as usize;
        let rest = changed(buffer, end);
        hexadecimal(rt, &buffer[..end])?;
        print!(rt; " {rest}")?;
    }
    println!(rt)
}

fn run(
    rt: &impl Print,
    zone: Zone,
    text: &[u8],
    from: u64,
    to: u64,
    buffer: &mut [u8],
) -> io::Result<()>
    requires { (from < 2 ^ 60) × (to < 2 ^ 60) }
{
    let mut size: u64 = 0;
    let answer = smocurant_expand(
        text,
        zone.name,
        zone.initial,
        &zone.instants,
        &zone.offsets,
        since_1970(from),
        since_1970(to),
        buffer,
        &mut size,
    );
    show(rt, answer, size, buffer)
}

pub(crate) fn call(
    rt: &impl Print,
    text: &[u8],
    zone_number: u64,
    from: u64,
    to: u64,
    room: u64,
) -> io::Result<()>
    requires { (from < 2 ^ 60) × (to < 2 ^ 60) }
{
    locate(rt, text)?;
    let mut buffer = [0u8; 8192];
    let end = room.min(8192) as usize;
    run(
        rt,
        numbered(zone_number),
        text,
        from,
        to,
        &mut buffer[..end],
    )
}
