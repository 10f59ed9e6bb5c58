// Ids by listed days: of an event with one rule that goes by months, none excluded, and no override.
ghost use Rattle.std.specs.Prelude.{true, ◌≡◌, ◌≤◌, length};
ghost use Rattle.dates.specs.Inner.Dates.{Whole};
ghost use Rattle.window.specs.Inner.Handed.{Span};
ghost use Rattle.source.specs.Inner.Listed.{Plain, Listing, ListedWindow, Seconds, HandedUnnamed, goes_on};

use crate::DAYS;
use dates::Dates;
use listing::whole::{is_by_months, list_chunk};
use matcher::layout::ROW;
use window::Chunk;
use window::next::day_from;

// One rule, none excluded, and no override.
fn has_one_rule(dates: Dates, ids: &[u64]) -> bool
    ensures { result ≡ true → (dates.rules.count ≡ 1) × ((dates.excluded.count ≡ 0) × (length ids.now ≡ 0)) }
{
    ids.is_empty() && dates.excluded.count == 0 && dates.rules.count == 1
}

// Whether the days are listed: a window of 31 days or fewer is sooner marked.
pub(crate) fn is_listed(dates: Dates, rows: &[bool], ids: &[u64], from: u64, to: u64) -> bool
    requires { Whole dates (length rows.now) 0 0 × Span from to }
    ensures { result ≡ true → Plain dates rows.now × (length ids.now ≡ 0) }
{
    2678400 < to - from
        && has_one_rule(dates, ids)
        && is_by_months(dates.rules.list[0].terms, &rows[..ROW])
}

// The days of the window, as many as fit.
fn list_window(dates: Dates, rows: &[bool], from: u64, to: u64, days: &mut [u32]) -> Chunk<u32>
    requires { Listing dates rows.now from to (length days.old) × (length days.old ≤ 1024) }
    ensures { ListedWindow dates rows.now from to days.old days.new result.count result.next }
{
    let start = dates.start;
    let first = day_from(start, from);
    let end = day_from(start, to);
    list_chunk(
        dates.rules.list[0],
        &rows[..ROW],
        (start / 86400) as u32,
        first as u32,
        end as u32,
        days,
    )
}

// Each day at the start's time of day.
fn write_seconds(start: u64, days: &[u32], out: &mut [u64])
    requires { length days.now ≤ length out.old }
    ensures { Seconds start days.now out.old out.new }
{
    let time = start % 86400;
    for (k, day) in days.iter().enumerate() {
        let id = 86400 * u64::from(*day) + time;
        out[k] = id;
    }
}

fn goes_on(start: u64, to: u64, next: u32) -> u64
    ensures { result ≡ goes_on start to next }
{
    let next = u64::from(next);
    if next < day_from(start, to) {
        86400 * next
    } else {
        to
    }
}

// By way of a lent list of days, which is no longer than the slice of ids.
fn list_ids(
    dates: Dates,
    rows: &[bool],
    from: u64,
    to: u64,
    days: &mut [u32],
    out: &mut [u64],
) -> Chunk
    requires { Listing dates rows.now from to (length days.old) × ((length days.old ≤ 1024) × (length days.old ≤ length out.old)) }
    ensures { HandedUnnamed dates rows.now from to out.old out.new result.count result.next }
{
    let Chunk { count, next } = list_window(dates, rows, from, to, days);
    write_seconds(dates.start, &days[..count], out);
    Chunk {
        count,
        next: goes_on(dates.start, to, next),
    }
}

// The ids from `from` on and before `to`, as many as fit; there is no override.
#[tactic(auto, using(crate::proofs::ListedLaws::lent))]
pub(crate) fn listed(dates: Dates, rows: &[bool], from: u64, to: u64, out: &mut [u64]) -> Chunk
    requires { Listing dates rows.now from to (length out.old) }
    ensures { HandedUnnamed dates rows.now from to out.old out.new result.count result.next }
{
    let mut days = [0u32; DAYS];
    let room = out.len().min(DAYS);
    list_ids(dates, rows, from, to, &mut days[..room], out)
}
