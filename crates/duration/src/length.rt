// How long a duration is.
ghost use Rattle.std.specs.Prelude.{◌≡◌, ◌<◌, length};
ghost use Rattle.duration.specs.Inner.Capped.{Capped};
ghost use Rattle.duration.specs.Length.{point_at, days_of, seconds_of, whole_of, fraction_of, length_of};

use crate::Span;
use crate::amount::{amount, cap};
use digits::legal_fraction;
use duration_grammar::grammar::is_duration;
use json_text::bytes::byte;

// 366 days of 86,400 seconds.
const LIMIT: u64 = 31622400;

// The place of the first point; the length where there is none.
fn point(raw: &[u8]) -> usize
    ensures { result ≡ point_at raw.now }
{
    let mut i = 0;
    while i < raw.len() {
        if byte(raw, i) == 0x2E {
            return i;
        }
        i += 1;
    }
    i
}

fn days(raw: &[u8]) -> u64
    ensures { Capped (days_of raw.now) result }
{
    let weeks = amount(raw, 0x57);
    let days = amount(raw, 0x44);
    cap(7 * weeks + days)
}

// Hours, minutes and the seconds before the byte c.
fn seconds(raw: &[u8], c: u8) -> u64
    ensures { Capped (seconds_of c raw.now) result }
{
    let hours = amount(raw, 0x48);
    let minutes = amount(raw, 0x4D);
    let seconds = amount(raw, c);
    cap(3600 * hours + 60 * minutes + seconds)
}

fn whole(raw: &[u8]) -> Span
    ensures { result ≡ whole_of raw.now }
{
    let days = days(raw);
    let seconds = seconds(raw, 0x53);
    if LIMIT < 86400 * days + seconds {
        return Span::Fault(22);
    }
    Span::Of(days, seconds)
}

fn fraction(raw: &[u8], at: usize) -> Span
    requires { (at ≡ point_at raw.now) × (at < length raw.now) }
    ensures { result ≡ fraction_of raw.now }
{
    let end = raw.len() - 1;
    let from = at + 1;
    if end < from {
        return Span::Fault(22);
    }
    if !legal_fraction(&raw[from..end]) {
        return Span::Fault(22);
    }
    let days = days(raw);
    let seconds = seconds(raw, 0x2E);
    if LIMIT <= 86400 * days + seconds {
        return Span::Fault(22);
    }
    Span::Fault(8)
}

pub fn length(raw: &[u8]) -> Span
    ensures { result ≡ length_of raw.now }
{
    if !is_duration(raw) {
        return Span::Fault(22);
    }
    let at = point(raw);
    if at < raw.len() {
        return fraction(raw, at);
    }
    whole(raw)
}
