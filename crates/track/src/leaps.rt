// From a day to one some days later.
ghost use Rattle.std.specs.Prelude.{◌≡◌, ◌+◌, ◌-◌, ◌<◌, ◌≤◌, length};
ghost use Rattle.gregorian.specs.Year.{year_length};
ghost use Rattle.gregorian.specs.Month.{month_start};
ghost use Rattle.gregorian.specs.Days.{day_count};
ghost use Rattle.calendar.specs.Inner.Within.{HoldsDayOfYear};
ghost use Rattle.rule.specs.Day.{day_at};
ghost use Rattle.rule.specs.Gives.{end_day};
ghost use Rattle.track.specs.Inner.Steps.{Holding, cursor_at};

use super::Cursor;
use matcher::Terms;
use rule::Day;

// k days later in the same month.
pub(crate) fn in_month(x: Day, k: u32) -> Day
    requires { (x ≡ day_at x.number) × ((x.number + k < day_count) × (x.monthday + k ≤ x.monthdays)) }
    ensures { result ≡ day_at (x.number + k) }
{
    Day {
        number: x.number + k,
        weekday: (x.weekday + k) % 7,
        yearday: x.yearday + k,
        monthday: x.monthday + k,
        ..x
    }
}

// The first day of the next year.
fn new_year(x: Day) -> Day
    requires { (x ≡ day_at x.number) × (x.number + (x.yeardays - x.yearday) < day_count) }
    ensures { result ≡ day_at (x.number + (x.yeardays - x.yearday)) }
{
    let rest = x.yeardays - x.yearday;
    let year = x.year + 1;
    let yeardays = calendar::year::year_length(year);
    Day {
        number: x.number + rest,
        weekday: (x.weekday + rest) % 7,
        year,
        yearday: 0,
        yeardays,
        month: 1,
        monthday: 1,
        monthdays: 31,
    }
}

// The month of the day that has r days of its year before it, from an earlier month on.
fn month_from(year: u32, month: u32, r: u32) -> u32
    requires { ((1 ≤ month) × (month ≤ 12)) × ((month_start year month ≤ r) × (r < year_length year)) }
    ensures { HoldsDayOfYear year result r }
{
    for m in month..12 {
        if r < calendar::month::month_start(year, m + 1) {
            return m;
        }
    }
    12
}

// k days later in the same year.
fn in_year(x: Day, k: u32) -> Day
    requires { (x ≡ day_at x.number) × ((x.number + k < day_count) × (x.yearday + k < x.yeardays)) }
    ensures { result ≡ day_at (x.number + k) }
{
    let yearday = x.yearday + k;
    let month = month_from(x.year, x.month, yearday);
    Day {
        number: x.number + k,
        weekday: (x.weekday + k) % 7,
        yearday,
        month,
        monthday: yearday - calendar::month::month_start(x.year, month) + 1,
        monthdays: calendar::month::month_length(x.year, month),
        ..x
    }
}

// Most leaps end in their year or after it: then no year is looked up.
pub fn days_later(x: Day, k: u32) -> Day
    requires { (x ≡ day_at x.number) × ((1 ≤ k) × (x.number + k < day_count)) }
    ensures { result ≡ day_at (x.number + k) }
{
    let near = k - 1;
    if x.monthdays < x.monthday + near {
        if x.yearday + k == x.yeardays {
            return new_year(x);
        }
        if x.yearday + k < x.yeardays {
            return in_year(x, k);
        }
        return rule::days::day_of(x.number + k);
    }
    let last = in_month(x, near);
    rule::days::next_day(last)
}

// The cursor k days later.
pub(crate) fn leap(terms: Terms, flags: &[bool], c: Cursor, k: u32) -> Cursor
    requires { Holding terms flags.now (length flags.now) c × ((1 ≤ k) × (c.day.number + k ≤ end_day)) }
    ensures { result ≡ cursor_at terms flags.now (c.day.number + k) }
{
    if k == 1 {
        return super::steps::advance(terms, flags, c);
    }
    let day = c.day;
    let x = days_later(day, k);
    super::steps::cursor_on(terms, flags, x)
}
