// From day to day with what set positions ask for: the period is counted once, where it begins, and then carried.
ghost use Rattle.std.specs.Prelude.{◌≡◌, ◌+◌, ◌≤◌, length};
ghost use Rattle.rule.specs.Day.{day_at};
ghost use Rattle.matcher.specs.Inner.Walk.{picks_on_by};
ghost use Rattle.track.specs.Inner.Steps.{is_counted, cursor_on, cursor_at, Reached, Holding};

use super::Cursor;
use matcher::Terms;
use matcher::layout::{POSITIONS, POSITIONS_BACK};
use rule::Day;

#[tactic(auto, unfolding(crate::specs::Inner::Steps::is_counted))]
fn is_counted(terms: Terms, n: u32) -> bool
    ensures { result ≡ is_counted terms n }
{
    terms.placed && n < 3067672
}

// The period of a day counted as a whole.
pub(crate) fn cursor_on(terms: Terms, flags: &[bool], x: Day) -> Cursor
    requires { (x ≡ day_at x.number) × Reached terms (length flags.now) x.number }
    ensures { result ≡ cursor_on terms flags.now x }
{
    if !is_counted(terms, x.number) {
        return Cursor {
            day: x,
            seen: 0,
            total: 0,
        };
    }
    let frequency = terms.frequency;
    let before = matcher::periods::since_first(frequency, terms.first, x);
    let all = matcher::periods::days_of(frequency, x);
    if before == 0 {
        let total = matcher::walk::count_in(flags, terms.inyear, x, all);
        return Cursor {
            day: x,
            seen: 0,
            total,
        };
    }
    let first = rule::days::day_of(x.number - before);
    let seen = matcher::walk::count_in(flags, terms.inyear, first, before);
    let total = matcher::walk::count_in(flags, terms.inyear, first, all);
    Cursor {
        day: x,
        seen,
        total,
    }
}

pub(crate) fn cursor_at(terms: Terms, flags: &[bool], n: u32) -> Cursor
    requires { Reached terms (length flags.now) n }
    ensures { result ≡ cursor_at terms flags.now n }
{
    let x = rule::days::day_of(n);
    cursor_on(terms, flags, x)
}

// The day after, in the same period or at the beginning of the next.
pub(crate) fn advance(terms: Terms, flags: &[bool], c: Cursor) -> Cursor
    requires { Holding terms flags.now (length flags.now) c }
    ensures { result ≡ cursor_at terms flags.now (c.day.number + 1) }
{
    let day = c.day;
    let x = rule::days::next_day(day);
    if !is_counted(terms, x.number) {
        return Cursor {
            day: x,
            seen: 0,
            total: 0,
        };
    }
    let frequency = terms.frequency;
    if matcher::periods::since_first(frequency, terms.first, x) == 0 {
        return cursor_on(terms, flags, x);
    }
    if matcher::flags::stays(flags, terms.inyear, day) {
        return Cursor {
            day: x,
            seen: c.seen + 1,
            ..c
        };
    }
    Cursor { day: x, ..c }
}

pub(crate) fn picks(terms: Terms, flags: &[bool], c: Cursor) -> bool
    requires { Holding terms flags.now (length flags.now) c }
    ensures { result ≡ picks_on_by terms flags.now c.day.number }
{
    let day = c.day;
    matcher::flags::stays(flags, terms.inyear, day)
        && matcher::walk::in_step(terms, day)
        && (!terms.placed
            || matcher::flags::is_named(flags, POSITIONS, POSITIONS_BACK, c.seen + 1, c.total))
}
