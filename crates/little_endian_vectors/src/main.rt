// Writes numbers of every width into a buffer of twelve bytes, and prints its bytes before and after. What must be printed is found anew
// by tests/little_endian_vectors.py.
#![tactic(auto)]

use little_endian::{put_i64, put_u16, put_u32, put_u64};
use std::io;

const FILL: [u8; 12] = [160, 161, 162, 163, 164, 165, 166, 167, 168, 169, 170, 171];

fn print_bytes(rt: &impl Print, s: &[u8]) -> io::Result<()> {
    for b in s {
        print!(rt; "{b:02x}")?;
    }
    Ok(())
}

fn show<F: FnOnce(&mut [u8; 12])>(rt: &impl Print, put: F) -> io::Result<()>
    requires { F.IsAlwaysCallable put }
{
    let before = FILL;
    let mut after = FILL;
    put(&mut after);
    print_bytes(rt, &before)?;
    print!(rt; " -> ")?;
    print_bytes(rt, &after)?;
    println!(rt)
}

fn unsigned(rt: &impl Print) -> io::Result<()> {
    show(rt, |buf| put_u16(buf, 0, 0))?;
    show(rt, |buf| put_u16(buf, 0, 28))?;
    show(rt, |buf| put_u16(buf, 5, 4660))?;
    show(rt, |buf| put_u16(buf, 10, 65535))?;
    show(rt, |buf| put_u32(buf, 0, 1))?;
    show(rt, |buf| put_u32(buf, 3, 305419896))?;
    show(rt, |buf| put_u32(buf, 8, 4294967295))?;
    show(rt, |buf| put_u32(buf, 8, 65536))?;
    show(rt, |buf| put_u64(buf, 0, 0))?;
    show(rt, |buf| put_u64(buf, 1, 72623859790382856))?;
    show(rt, |buf| put_u64(buf, 4, 18446744073709551615))?;
    show(rt, |buf| put_u64(buf, 4, 9223372036854775808))
}

// Among them the three numbers of 01's first worked date.
fn signed_numbers(rt: &impl Print) -> io::Result<()> {
    show(rt, |buf| put_i64(buf, 0, 1516021200))?;
    show(rt, |buf| put_i64(buf, 0, 1516039200))?;
    show(rt, |buf| put_i64(buf, 0, 1516042800))?;
    show(rt, |buf| put_i64(buf, 2, 0))?;
    show(rt, |buf| put_i64(buf, 2, -1))?;
    show(rt, |buf| put_i64(buf, 3, -256))?;
    show(rt, |buf| put_i64(buf, 3, -257))?;
    show(rt, |buf| put_i64(buf, 4, -11644473600))?;
    show(rt, |buf| put_i64(buf, 4, 253370764800))?;
    show(rt, |buf| put_i64(buf, 4, 9223372036854775807))?;
    show(rt, |buf| put_i64(buf, 4, -9223372036854775808))
}

fn main(rt: HostRuntime) -> io::Result<()> {
    unsigned(&rt)?;
    signed_numbers(&rt)
}
