// Runs the cases of stdin, one to a line, against the proved readers of values, and prints a line for each. A case is a letter for the
// reader, a space, and the string that is read. What must be printed is found anew by tests/values_vectors.py.
#![tactic(auto)]

ghost use Rattle.std.specs.Prelude.{◌≤◌, ◌<◌, length};

use date_time::DateTime;
use duration::Span;
use fault::Fault;
use json_text::bytes::byte;
use keywords::{FreeBusy, Named, Privacy, Rate};
use std::io;
use std::io::Read;

// The input is read as far as this.
const LONGEST: u64 = 65536;

fn number(rt: &impl Print, n: u64) -> io::Result<()> {
    print!(rt; "{n}")
}

fn fault(rt: &impl Print, n: u32) -> io::Result<()> {
    rt.write_all(b"fault ")?;
    number(rt, n as u64)
}

fn date_time(rt: &impl Print, d: DateTime) -> io::Result<()> {
    match d {
        DateTime::At(n) => number(rt, n),
        DateTime::Fault(n) => fault(rt, n),
    }
}

fn span(rt: &impl Print, s: Span) -> io::Result<()> {
    match s {
        Span::Of(d, n) => {
            number(rt, d)?;
            rt.write_all(b" days ")?;
            number(rt, n)
        }
        Span::Fault(n) => fault(rt, n),
    }
}

fn named(rt: &impl Print, n: Named) -> io::Result<()> {
    match n {
        Named::Number(k) => number(rt, k as u64),
        Named::Wrong(k) => fault(rt, k),
    }
}

fn rate(rt: &impl Print, r: Rate) -> io::Result<()> {
    match r {
        Rate::Daily => number(rt, 1),
        Rate::Weekly => number(rt, 2),
        Rate::Monthly => number(rt, 3),
        Rate::Yearly => number(rt, 4),
        Rate::Fault(n) => fault(rt, n),
    }
}

fn free_busy(rt: &impl Print, s: FreeBusy) -> io::Result<()> {
    match s {
        FreeBusy::Free => number(rt, 0),
        FreeBusy::Busy => number(rt, 1),
        FreeBusy::Fault(n) => fault(rt, n),
    }
}

fn privacy(rt: &impl Print, p: Privacy) -> io::Result<()> {
    match p {
        Privacy::Public => number(rt, 0),
        Privacy::Private => number(rt, 1),
        Privacy::Secret => number(rt, 2),
    }
}

fn flag(rt: &impl Print, b: bool) -> io::Result<()> {
    if b {
        return number(rt, 1);
    }
    number(rt, 0)
}

// The words of a rule, by the letter of the reader.
fn rule_word(rt: &impl Print, kind: u8, raw: &[u8]) -> io::Result<()> {
    match kind {
        b'f' => rate(rt, keywords::rules::frequency(raw)),
        b'w' => named(rt, keywords::rules::weekday(raw)),
        b'm' => named(rt, keywords::months::month(raw)),
        b'k' => fault(rt, keywords::rules::skip(raw)),
        _ => fault(rt, keywords::rules::rscale(raw)),
    }
}

// The other words.
fn word(rt: &impl Print, kind: u8, raw: &[u8]) -> io::Result<()> {
    match kind {
        b'b' => free_busy(rt, keywords::marks::free_busy(raw)),
        b'p' => privacy(rt, keywords::marks::privacy(raw)),
        b'E' => flag(rt, keywords::types::is_event(raw)),
        b'R' => flag(rt, keywords::types::is_rule(raw)),
        b'N' => flag(rt, keywords::types::is_nday(raw)),
        _ => rule_word(rt, kind, raw),
    }
}

// A fault in three digits at a place of the line: two for its number, 00 for none, and one for its place.
fn fault_in(raw: &[u8], at: usize) -> Option<Fault>
    requires { at < 100 }
{
    let place = digits::digit(byte(raw, at + 2));
    fault::fault_at(digits::two(raw, at), place as usize)
}

// The one of two faults that decides.
fn join(rt: &impl Print, raw: &[u8]) -> io::Result<()> {
    let decided = fault::lower(fault_in(raw, 0), fault_in(raw, 4));
    fault(rt, fault::number_of(decided))?;
    rt.write_all(b" at ")?;
    number(rt, fault::place_of(decided) as u64)
}

// Date-times and durations, the join of two faults, and words.
fn value(rt: &impl Print, kind: u8, raw: &[u8]) -> io::Result<()> {
    match kind {
        b's' => date_time(rt, date_time::local::local(raw, 9998)),
        b'u' => date_time(rt, date_time::local::local(raw, 9999)),
        b'z' => flag(rt, date_time::utc::is_utc(raw)),
        b'd' => span(rt, duration::length::length(raw)),
        b'j' => join(rt, raw),
        _ => word(rt, kind, raw),
    }
}

fn line(rt: &impl Print, s: &[u8]) -> io::Result<()> {
    if s.len() < 2 {
        return Ok(());
    }
    rt.write_all(s)?;
    rt.write_all(b" -> ")?;
    value(rt, s[0], &s[2..])?;
    rt.write_all(b"\n")
}

// Where the line that starts at a place ends.
fn line_end(text: &[u8], at: usize) -> usize
    requires { at ≤ length text.now }
    ensures { (at ≤ result) × (result ≤ length text.now) }
{
    for i in at..text.len() {
        if text[i] == b'\n' {
            return i;
        }
    }
    text.len()
}

fn lines(rt: &impl Print, text: &[u8]) -> io::Result<()> {
    let mut at = 0;
    while at < text.len() {
        let end = line_end(text, at);
        line(rt, &text[at..end])?;
        at = end + 1;
    }
    Ok(())
}

fn main(rt: HostRuntime) -> io::Result<()> {
    let mut text = Vec::new(rt.alloc());
    rt.reader().take(LONGEST).read_to_end(&mut text)?;
    lines(&rt, &text)
}
