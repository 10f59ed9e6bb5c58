// A day with all that a rule asks of it: looked up once, then stepped from one day to the next.
ghost use Rattle.std.specs.Prelude.{◌≡◌, ◌+◌, ◌%◌, ◌<◌};
ghost use Rattle.gregorian.specs.Days.{day_count};
ghost use Rattle.rule.specs.Day.{day_at};

use super::Day;
use gregorian::Date;

pub fn day_of(number: u32) -> Day
    requires { number < day_count }
    ensures { result ≡ day_at number }
{
    let Date { year, month, day } = calendar::days::date_of(number);
    Day {
        number,
        weekday: calendar::days::weekday(number),
        year,
        yearday: calendar::month::month_start(year, month) + (day - 1),
        yeardays: calendar::year::year_length(year),
        month,
        monthday: day,
        monthdays: calendar::month::month_length(year, month),
    }
}

fn next_weekday(weekday: u32) -> u32
    requires { weekday < 7 }
    ensures { result ≡ (weekday + 1) % 7 }
{
    if weekday < 6 { weekday + 1 } else { 0 }
}

// The day after: in the same month, else in the next one, else on January 1st.
pub fn next_day(x: Day) -> Day
    requires { (x ≡ day_at x.number) × (x.number + 1 < day_count) }
    ensures { result ≡ day_at (x.number + 1) }
{
    let weekday = next_weekday(x.weekday);
    if x.monthday < x.monthdays {
        return Day {
            number: x.number + 1,
            weekday,
            yearday: x.yearday + 1,
            monthday: x.monthday + 1,
            ..x
        };
    }
    if x.month < 12 {
        return Day {
            number: x.number + 1,
            weekday,
            yearday: x.yearday + 1,
            month: x.month + 1,
            monthday: 1,
            monthdays: calendar::month::month_length(x.year, x.month + 1),
            ..x
        };
    }
    let year = x.year + 1;
    Day {
        number: x.number + 1,
        weekday,
        year,
        yearday: 0,
        yeardays: calendar::year::year_length(year),
        month: 1,
        monthday: 1,
        monthdays: 31,
    }
}
