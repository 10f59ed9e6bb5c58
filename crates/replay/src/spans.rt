// The spans of a sheet's records: each span's end at the place of its first week, the farthest of them.
ghost use Rattle.std.specs.Prelude.{◌≡◌, ◌+◌, ◌*◌, ◌≤◌, ◌<◌, ◌^◌, length};
ghost use Rattle.sheet.specs.Runs.{tabulate};
ghost use Rattle.weeks.specs.Inner.Marks.{Span, after_of, span_at, raise_all, raise as marks_raise, larger as marks_larger};

use crate::instants::{first_of, up};
use sheet_reader::fields::{end_at, start_at};
use signed::positive_part;

#[tactic(auto, unfolding(weeks::specs::Inner::Marks::larger))]
pub(crate) fn larger(a: u64, b: u64) -> u64
    ensures { result ≡ marks_larger a b }
{
    a.max(b)
}

// The week after the last one that the span from x to y touches.
fn after_of(b: u64, x: u64, y: u64) -> u64
    ensures { (result ≡ after_of b x y) × (result < 2 ^ 63) }
{
    if x < y {
        y.saturating_sub(b).div_ceil(604800)
    } else if x < b {
        0
    } else {
        (x - b) / 604800 + 1
    }
}

// The larger of what place `first` holds and `after`, stored there.
fn raise(p: &mut [i64], first: u64, after: u64)
    requires { after < 2 ^ 63 }
    ensures { p.new ≡ marks_raise p.old (record { first = first; after = after }) }
{
    let at = first as usize;
    if at < p.len() {
        let held = positive_part(p[at]);
        p[at] = larger(held, after) as i64;
    }
}

// The span of record k.
fn mark(s: &[u8], k: usize, b: u64, p: &mut [i64])
    requires { 28 * k + 28 ≤ length s.now }
    ensures { p.new ≡ marks_raise p.old (span_at s.now b k) }
{
    let x = up(start_at(s, k));
    let y = up(end_at(s, k));
    raise(p, first_of(b, x), after_of(b, x, y));
}

// The spans of n records.
pub(crate) fn mark_all(s: &[u8], n: usize, b: u64, p: &mut [i64])
    requires { 28 * n ≤ length s.now }
    ensures { p.new ≡ raise_all (tabulate (span_at s.now b) 0 n) p.old }
{
    for k in 0..n {
        mark(s, k, b, p);
    }
}
