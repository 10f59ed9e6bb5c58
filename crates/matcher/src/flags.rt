// A day against the row of flags.
ghost use Rattle.std.specs.Prelude.{◌≡◌, ◌+◌, ◌-◌, ◌<◌, ◌≤◌, length};
ghost use Rattle.matcher.specs.Inner.Flags.{Row, Places, named, nth_by, month_by, date_by, day_by, stays_by};
ghost use Rattle.rule.specs.Inner.Bounds.{InCalendar};

use super::layout::{DATES, DATES_BACK, NTHS, NTHS_BACK, WEEKDAYS};
use rule::Day;

// A place of `count` places, from 1: by its own number or by its number from the end.
#[tactic(auto, unfolding(crate::specs::Inner::Flags::named))]
pub fn is_named(flags: &[bool], on: usize, back: usize, place: u32, count: u32) -> bool
    requires { Places (length flags.now) on back place count }
    ensures { result ≡ named flags.now on back place count }
{
    let from_end = count + 1 - place;
    flags[on + place as usize] || flags[back + from_end as usize]
}

// The day has `before` days of `count` before it, of a month or a year.
#[tactic(auto, unfolding(crate::specs::Inner::Flags::nth_by))]
pub fn is_nth(flags: &[bool], weekday: u32, before: u32, count: u32) -> bool
    requires { Row (length flags.now) × ((weekday < 7) × ((before < count) × (count ≤ 366))) }
    ensures { result ≡ nth_by flags.now weekday before count }
{
    let place = before / 7 + 1;
    let places = place + (count - (before + 1)) / 7;
    let at = 54 * weekday as usize;
    is_named(flags, NTHS + at, NTHS_BACK + at, place, places)
}

#[tactic(auto, unfolding(crate::specs::Inner::Flags::month_by))]
pub fn on_month(flags: &[bool], x: Day) -> bool
    requires { Row (length flags.now) × InCalendar x }
    ensures { result ≡ month_by flags.now x }
{
    flags[x.month as usize]
}

#[tactic(auto, unfolding(crate::specs::Inner::Flags::date_by))]
fn on_date(flags: &[bool], x: Day) -> bool
    requires { Row (length flags.now) × InCalendar x }
    ensures { result ≡ date_by flags.now x }
{
    is_named(flags, DATES, DATES_BACK, x.monthday, x.monthdays)
}

#[tactic(auto, unfolding(crate::specs::Inner::Flags::day_by))]
fn on_day(flags: &[bool], inyear: bool, x: Day) -> bool
    requires { Row (length flags.now) × InCalendar x }
    ensures { result ≡ day_by flags.now inyear x }
{
    flags[WEEKDAYS + x.weekday as usize]
        || if inyear {
            is_nth(flags, x.weekday, x.yearday, x.yeardays)
        } else {
            is_nth(flags, x.weekday, x.monthday - 1, x.monthdays)
        }
}

// Whether every by-list but that of positions has an entry that the day meets.
#[tactic(auto, unfolding(crate::specs::Inner::Flags::stays_by))]
pub fn stays(flags: &[bool], inyear: bool, x: Day) -> bool
    requires { Row (length flags.now) × InCalendar x }
    ensures { result ≡ stays_by flags.now inyear x }
{
    on_month(flags, x) && on_date(flags, x) && on_day(flags, inyear, x)
}
