// The first day that is not a rule's own any more.
ghost use Rattle.std.proofs.Math.Option.{none};
ghost use Rattle.std.specs.Prelude.{if◌then◌else◌, true, false, ◌≡◌, ◌-◌, ◌/◌, ◌%◌, ◌<◌, ◌≤◌, length};
ghost use Rattle.rule.specs.Lists.{not_after};
ghost use Rattle.rule.specs.Gives.{end_day, on_day};
ghost use Rattle.rule.specs.Inner.Read.{until_from};
ghost use Rattle.matcher.specs.Inner.Member.{is_first, falls_on_by};
ghost use Rattle.track.specs.Inner.Last.{until_day, end_of, last_by, Ending};
ghost use Rattle.track.specs.Inner.Steps.{Holding};

use super::Cursor;
use matcher::Terms;
use rule::End;

fn until_day(start: u64, until: u64) -> u32
    ensures { result ≡ until_day start until }
{
    match until.checked_sub(start % 86400) {
        Some(rest) => (rest / 86400 + 1).min(3067672) as u32,
        None => 0,
    }
}

// The start's own day, which a rule has even unmatched and an excluded rule has not.
#[tactic(auto, unfolding(matcher::specs::Inner::Member::is_first))]
pub(crate) fn is_first(excluded: bool, first: u32, day: u32) -> bool
    ensures { result ≡ is_first excluded first day }
{
    !excluded && day == first
}

#[tactic(auto, unfolding(rule::specs::Lists::not_after, rule::specs::Inner::Read::until_from))]
pub(crate) fn not_after(end: End, at: u64) -> bool
    ensures { result ≡ not_after at (until_from end) }
{
    match end {
        End::Until(last) => at <= last,
        End::Never | End::Count(_) => true,
    }
}

// Whether the rule has a day, its `count` apart, where it is known whether it picks that day.
pub(crate) fn has_day(excluded: bool, end: End, start: u64, day: u32, picked: bool) -> bool
    requires { start / 86400 < end_day }
    ensures { result ≡ (if is_first excluded (start / 86400) day then true else if picked then not_after (on_day start day) (until_from end) else false) }
{
    is_first(excluded, (start / 86400) as u32, day)
        || (picked && not_after(end, 86400 * u64::from(day) + start % 86400))
}

// The same of a day on the way through the rule.
pub(crate) fn falls(
    excluded: bool,
    end: End,
    terms: Terms,
    flags: &[bool],
    start: u64,
    c: Cursor,
) -> bool
    requires { Holding terms flags.now (length flags.now) c × (start / 86400 < end_day) }
    ensures { result ≡ falls_on_by excluded end terms flags.now start c.day.number }
{
    let picked = super::steps::picks(terms, flags, c);
    has_day(excluded, end, start, c.day.number, picked)
}

fn walk_count(
    excluded: bool,
    end: End,
    terms: Terms,
    flags: &[bool],
    start: u64,
    limit: u32,
    count: u64,
) -> u32
    requires { (Ending terms (length flags.now) start limit × (until_from end ≡ none)) × (start / 86400 < limit) }
    ensures { result ≡ end_of (falls_on_by excluded end terms flags.now start) (limit - start / 86400) (start / 86400) count }
{
    let need = super::places::least_days(terms, flags);
    let from = super::ahead::count_from(excluded, end, terms, flags, start, limit, count);
    let x = from.day;
    let mut c = super::steps::cursor_on(terms, flags, x);
    let mut left = from.left;
    let mut more = from.more;
    // The steps are as long as a day or a gap, so no range has them.
    while 0 < left {
        if more == 0 {
            return limit - left;
        }
        if falls(excluded, end, terms, flags, start, c) {
            more -= 1;
            left -= 1;
            c = super::steps::advance(terms, flags, c);
        } else {
            let gap = super::skips::gap(terms, flags, need, c);
            if left <= gap {
                return limit;
            }
            left -= gap;
            c = super::leaps::leap(terms, flags, c, gap);
        }
    }
    limit
}

// The day that has `count` of the rule's days before it, or the limit: a rule has one date a day, so a count of that many days needs no walk.
fn count_day(
    excluded: bool,
    end: End,
    terms: Terms,
    flags: &[bool],
    start: u64,
    limit: u32,
    count: u64,
) -> u32
    requires { Ending terms (length flags.now) start limit × (until_from end ≡ none) }
    ensures { result ≡ end_of (falls_on_by excluded end terms flags.now start) (limit - start / 86400) (start / 86400) count }
{
    let first = (start / 86400) as u32;
    if limit <= first {
        return first;
    }
    if (limit - first) as u64 <= count {
        return limit;
    }
    walk_count(excluded, end, terms, flags, start, limit, count)
}

// A count is walked once from the start to its last day, and no further than the limit, which no later day is asked beyond.
pub(crate) fn last_day(
    excluded: bool,
    end: End,
    terms: Terms,
    flags: &[bool],
    start: u64,
    limit: u32,
) -> u32
    requires { Ending terms (length flags.now) start limit }
    ensures { result ≡ last_by excluded end terms flags.now start limit }
{
    match end {
        End::Never => 3067672,
        End::Until(until) => until_day(start, until),
        End::Count(count) => count_day(excluded, end, terms, flags, start, limit, count),
    }
}
