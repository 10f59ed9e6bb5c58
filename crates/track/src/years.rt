// A count from far before: a rule has as many days in a year as in another of its kind, so each kind is counted once.
ghost use Rattle.std.proofs.Math.Option.{none};
ghost use Rattle.std.specs.Prelude.{◌≡◌, ◌+◌, ◌/◌, ◌<◌, ◌≤◌, length};
ghost use Rattle.rule.specs.Day.{day_at};
ghost use Rattle.rule.specs.Gives.{end_day};
ghost use Rattle.rule.specs.Lists.{count_in};
ghost use Rattle.rule.specs.Inner.Read.{until_from};
ghost use Rattle.matcher.specs.Inner.Member.{falls_on_by};
ghost use Rattle.track.specs.Inner.Ahead.{AheadOf, Resting};
ghost use Rattle.track.specs.Inner.Years.{owns_places, is_alike, is_far, NewYear, idle_in, is_idle, Some, slot_of, YearBegins, Alike, Spanning, YearAsked, Kept};

use super::Rest;
use matcher::Terms;
use rule::{Day, End, Frequency};

// A week may begin in one year and end in the next: the days of the other year are alike too, but for their place in the year.
#[tactic(auto, unfolding(crate::specs::Inner::Years::owns_places))]
fn owns_places(frequency: Frequency, placed: bool, inyear: bool) -> bool
    ensures { result ≡ owns_places frequency placed inyear }
{
    frequency != Frequency::Weekly || !placed || !inyear
}

// With an interval beyond 512 hardly two years are of one kind, and few have a day of the rule.
#[tactic(auto, unfolding(crate::specs::Inner::Years::is_alike))]
fn is_alike(terms: Terms) -> bool
    ensures { result ≡ is_alike terms }
{
    (1..=512).contains(&terms.interval) && owns_places(terms.frequency, terms.placed, terms.inyear)
}

// Fewer days are counted as fast one by one, or a month at a time where there are no set positions.
#[tactic(auto, unfolding(crate::specs::Inner::Years::is_far))]
fn is_far(placed: bool, left: u32) -> bool
    ensures { result ≡ is_far placed left }
{
    let least = if placed { 12000 } else { 100000 };
    least <= left
}

// The place of a year's kind: its length, the weekday of its first day, and how far the period of that day lies after one in step.
fn slot_of(terms: Terms, x: Day) -> u32
    requires { Alike terms × YearBegins terms x }
    ensures { result ≡ slot_of terms x }
{
    let frequency = terms.frequency;
    let period = matcher::periods::period_of(frequency, terms.first, x);
    let start = terms.period;
    let interval = terms.interval as u32;
    let phase = (period - start) % interval;
    512 * (7 * (x.yeardays - 365) + x.weekday) + phase
}

// How many of the n days from a day on the rule has.
fn count_days(
    excluded: bool,
    end: End,
    terms: Terms,
    flags: &[bool],
    start: u64,
    x: Day,
    n: u32,
) -> u32
    requires { Spanning terms (length flags.now) start x n }
    ensures { result ≡ count_in (falls_on_by excluded end terms flags.now start) x.number n }
{
    let need = super::places::least_days(terms, flags);
    let mut c = super::steps::cursor_on(terms, flags, x);
    let mut left = n;
    let mut found: u32 = 0;
    // The steps are as long as a day or a gap, so no range has them.
    while 0 < left {
        if super::last::falls(excluded, end, terms, flags, start, c) {
            found += 1;
            left -= 1;
            c = super::steps::advance(terms, flags, c);
        } else {
            let gap = super::skips::gap(terms, flags, need, c);
            if left <= gap {
                return found;
            }
            left -= gap;
            c = super::leaps::leap(terms, flags, c, gap);
        }
    }
    found
}

// Months out of step are not to be counted for the sake of one in step.
fn span_part(frequency: Frequency, x: Day, left: u32) -> u32
    requires { (x ≡ day_at x.number) × ((x.number < end_day) × (1 ≤ left)) }
    ensures { Some left result }
{
    if frequency == Frequency::Monthly {
        super::plain::month_part(x, left as usize) as u32
    } else {
        left
    }
}

// The same, where days that surely are none of the rule's are passed first.
fn count_span(
    excluded: bool,
    end: End,
    terms: Terms,
    flags: &[bool],
    start: u64,
    x: Day,
    n: u32,
) -> u32
    requires { Spanning terms (length flags.now) start x n }
    ensures { result ≡ count_in (falls_on_by excluded end terms flags.now start) x.number n }
{
    let first = (start / 86400) as u32;
    let mut d = x;
    let mut left = n;
    let mut found: u32 = 0;
    // The steps are as long as a gap or a part, so no range has them.
    while 0 < left {
        let here = d;
        let out = super::ahead::out_after(terms, flags, first, here);
        if 0 < out {
            if left <= out {
                return found;
            }
            left -= out;
            d = super::leaps::days_later(here, out);
        } else {
            let frequency = terms.frequency;
            let part = span_part(frequency, here, left);
            found += count_days(excluded, end, terms, flags, start, here, part);
            left -= part;
            d = super::leaps::days_later(here, part);
        }
    }
    found
}

#[tactic(auto, unfolding(crate::specs::Inner::Years::idle_in))]
fn idle_in(frequency: Frequency, interval: u64, phase: u64) -> bool
    requires { phase < interval }
    ensures { result ≡ idle_in frequency interval phase }
{
    frequency == Frequency::Monthly && phase != 0 && 12 <= interval - phase
}

// Whether no month of a year is in step: then the year is not walked. Other periods are passed at once where they are out of step.
fn is_idle(terms: Terms, x: Day) -> bool
    requires { YearBegins terms x }
    ensures { result ≡ is_idle terms x }
{
    let interval = terms.interval;
    if interval < 12 {
        return false;
    }
    let frequency = terms.frequency;
    let period = matcher::periods::period_of(frequency, terms.first, x);
    let start = terms.period;
    let phase = (period - start) as u64 % interval;
    idle_in(frequency, interval, phase)
}

// How many days of a year the rule has. They are kept with one more: 0 stands for a kind that was not met before.
fn year_count(
    excluded: bool,
    end: End,
    terms: Terms,
    flags: &[bool],
    start: u64,
    known: &mut [u32],
    x: Day,
) -> u32
    requires { YearAsked end terms (length flags.now) start x × Kept (falls_on_by excluded end terms flags.now start) terms (start / 86400) known.old }
    ensures { (result ≡ count_in (falls_on_by excluded end terms flags.now start) x.number x.yeardays) × Kept (falls_on_by excluded end terms flags.now start) terms (start / 86400) known.new }
{
    if is_idle(terms, x) {
        return 0;
    }
    let n = x.yeardays;
    if !is_alike(terms) {
        return count_span(excluded, end, terms, flags, start, x, n);
    }
    let slot = slot_of(terms, x) as usize;
    let kept = known[slot];
    if 0 < kept {
        return kept - 1;
    }
    let found = count_span(excluded, end, terms, flags, start, x, n);
    known[slot] = found + 1;
    found
}

// Whole years from the first day of one on, as long as they do not use the count up.
fn pass_years(
    excluded: bool,
    end: End,
    terms: Terms,
    flags: &[bool],
    start: u64,
    from: Rest,
) -> Rest
    requires { ((until_from end ≡ none) × (NewYear from.day × (start / 86400 < from.day.number))) × Resting terms (length flags.now) start from }
    ensures { AheadOf (falls_on_by excluded end terms flags.now start) from result }
{
    let mut known: [u32; 7168] = [0; 7168];
    let mut x = from.day;
    let mut left = from.left;
    let mut more = from.more;
    // The steps are as long as the years, so no range has them.
    while 366 <= left {
        let d = x;
        let found = year_count(excluded, end, terms, flags, start, &mut known, d);
        if more <= found as u64 {
            return Rest { day: d, left, more };
        }
        let n = d.yeardays;
        more -= found as u64;
        left -= n;
        x = super::leaps::days_later(d, n);
    }
    Rest { day: x, left, more }
}

// The rest of the first year is counted on its own.
pub(crate) fn pass_far(
    excluded: bool,
    end: End,
    terms: Terms,
    flags: &[bool],
    start: u64,
    from: Rest,
) -> Rest
    requires { (until_from end ≡ none) × Resting terms (length flags.now) start from }
    ensures { AheadOf (falls_on_by excluded end terms flags.now start) from result }
{
    let left = from.left;
    if !is_far(terms.placed, left) {
        return from;
    }
    let x = from.day;
    let n = x.yeardays - x.yearday;
    let found = count_span(excluded, end, terms, flags, start, x, n);
    let more = from.more;
    if more <= found as u64 {
        return from;
    }
    let begin = Rest {
        day: super::leaps::days_later(x, n),
        left: left - n,
        more: more - found as u64,
    };
    pass_years(excluded, end, terms, flags, start, begin)
}
