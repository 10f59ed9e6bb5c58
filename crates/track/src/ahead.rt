// A count on its way: years and, without set positions, months that do not use it up are passed whole.
ghost use Rattle.std.specs.Prelude.{false, ◌≡◌, ◌/◌, ◌<◌, ◌≤◌, length};
ghost use Rattle.std.proofs.Math.Option.{none};
ghost use Rattle.rule.specs.Gives.{end_day};
ghost use Rattle.rule.specs.Lists.{count_in};
ghost use Rattle.rule.specs.Inner.Read.{until_from};
ghost use Rattle.matcher.specs.Inner.Walk.{Asked};
ghost use Rattle.matcher.specs.Inner.Member.{falls_on_by};
ghost use Rattle.track.specs.Inner.Last.{Ending};
ghost use Rattle.track.specs.Inner.Plain.{InMonth};
ghost use Rattle.track.specs.Inner.Ahead.{OutAfter, AheadAt, AheadOf, Resting};

use super::Rest;
use matcher::Terms;
use rule::{Day, End};

fn falls_plain(excluded: bool, end: End, terms: Terms, flags: &[bool], start: u64, x: Day) -> bool
    requires { (terms.placed ≡ false) × (Asked terms (length flags.now) x × (start / 86400 < end_day)) }
    ensures { result ≡ falls_on_by excluded end terms flags.now start x.number }
{
    let picked = super::plain::picks_plain(terms, flags, x);
    super::last::has_day(excluded, end, start, x.number, picked)
}

// How many of n days of one month the rule has.
fn count_month(
    excluded: bool,
    end: End,
    terms: Terms,
    flags: &[bool],
    start: u64,
    x: Day,
    n: u32,
) -> u32
    requires { (terms.placed ≡ false) × ((Asked terms (length flags.now) x × InMonth x n) × (start / 86400 < end_day)) }
    ensures { result ≡ count_in (falls_on_by excluded end terms flags.now start) x.number n }
{
    let mut found = 0;
    for k in 0..n {
        let y = super::leaps::in_month(x, k);
        if falls_plain(excluded, end, terms, flags, start, y) {
            found += 1;
        }
    }
    found
}

// Days from this one on that surely are none of the rule's; the start's own day may be.
pub(crate) fn out_after(terms: Terms, flags: &[bool], first: u32, x: Day) -> u32
    requires { Asked terms (length flags.now) x }
    ensures { OutAfter terms flags.now first x.number result }
{
    if x.number <= first {
        return 0;
    }
    super::skips::skip(terms, flags, x)
}

fn pass_months(
    excluded: bool,
    end: End,
    terms: Terms,
    flags: &[bool],
    start: u64,
    from: Rest,
) -> Rest
    requires { (terms.placed ≡ false) × Resting terms (length flags.now) start from }
    ensures { AheadOf (falls_on_by excluded end terms flags.now start) from result }
{
    let first = (start / 86400) as u32;
    let mut x = from.day;
    let mut left = from.left;
    let mut more = from.more;
    // The steps are as long as a gap or a month, so no range has them.
    while 0 < left {
        let d = x;
        if more == 0 {
            return Rest { day: d, left, more };
        }
        let out = out_after(terms, flags, first, d);
        if 0 < out {
            if left <= out {
                return Rest { day: d, left, more };
            }
            left -= out;
            x = super::leaps::days_later(d, out);
        } else {
            let n = super::plain::month_part(d, left as usize) as u32;
            let found = count_month(excluded, end, terms, flags, start, d, n);
            if more <= found as u64 {
                return Rest { day: d, left, more };
            }
            more -= found as u64;
            left -= n;
            x = super::leaps::days_later(d, n);
        }
    }
    Rest { day: x, left, more }
}

// A day to count on from, and what is left of the days and of the count there.
pub(crate) fn count_from(
    excluded: bool,
    end: End,
    terms: Terms,
    flags: &[bool],
    start: u64,
    limit: u32,
    count: u64,
) -> Rest
    requires { (Ending terms (length flags.now) start limit × (until_from end ≡ none)) × (start / 86400 < limit) }
    ensures { AheadAt (falls_on_by excluded end terms flags.now start) (start / 86400) limit count result }
{
    let first = (start / 86400) as u32;
    let begin = Rest {
        day: rule::days::day_of(first),
        left: limit - first,
        more: count,
    };
    let far = super::years::pass_far(excluded, end, terms, flags, start, begin);
    if terms.placed {
        return far;
    }
    pass_months(excluded, end, terms, flags, start, far)
}
