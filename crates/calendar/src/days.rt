// Dates and day numbers, counted from 1600-01-01.
ghost use Rattle.std.specs.Prelude.{true, ◌≡◌, ◌<◌, ◌≤◌};
ghost use Rattle.gregorian.specs.Year.{year_length};
ghost use Rattle.gregorian.specs.Days.{is_date, day_of, day_count, date_of, weekday_of};
ghost use Rattle.calendar.specs.Inner.Within.{HoldsDay, HoldsDayOfYear};

use gregorian::Date;

// 0 is Monday.
pub fn weekday(day: u32) -> u32
    ensures { result ≡ weekday_of day }
{
    (day % 7 + 5) % 7
}

// Whether the calendar has this date.
#[tactic(auto, unfolding(gregorian::specs::Days::is_date))]
pub fn is_date(date: Date) -> bool
    ensures { result ≡ is_date date }
{
    (1600..=9999).contains(&date.year)
        && (1..=super::month::month_length(date.year, date.month)).contains(&date.day)
}

pub fn day_number(date: Date) -> u32
    requires { is_date date ≡ true }
    ensures { result ≡ day_of date }
{
    let first = super::year::year_start(date.year);
    let before = super::month::month_start(date.year, date.month);
    first + before + (date.day - 1)
}

// The year of the cycle of 400 years that holds the cycle's day r. A year has 365 or 366 days, so r / 366 is that year or the one before.
fn year_in_cycle(r: u32) -> u32
    requires { r < 146097 }
    ensures { HoldsDay result r }
{
    let k = r / 366;
    if super::year::first_in_cycle(k + 1) <= r {
        return k + 1;
    }
    k
}

// The month that holds day r of the year, counted from 0. A month has at most 31 days and the year starts with one of them, so
// r / 32 + 1 is that month or the one before.
fn month_in_year(year: u32, r: u32) -> u32
    requires { r < year_length year }
    ensures { HoldsDayOfYear year result r }
{
    let m = r / 32 + 1;
    if super::month::month_start(year, m + 1) <= r {
        return m + 1;
    }
    m
}

pub fn date_of(day: u32) -> Date
    requires { day < day_count }
    ensures { result ≡ date_of day }
{
    let r = day % 146097;
    let k = year_in_cycle(r);
    let year = 1600 + day / 146097 * 400 + k;
    let rest = r - super::year::first_in_cycle(k);
    let month = month_in_year(year, rest);
    let before = super::month::month_start(year, month);
    Date {
        year,
        month,
        day: rest - before + 1,
    }
}
