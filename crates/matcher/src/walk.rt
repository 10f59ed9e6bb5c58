// A rule from day to day.
ghost use Rattle.std.specs.Prelude.{◌≡◌, ◌+◌, ◌<◌, length};
ghost use Rattle.gregorian.specs.Days.{day_count};
ghost use Rattle.rule.specs.Day.{day_at};
ghost use Rattle.rule.specs.Lists.{count_in};
ghost use Rattle.rule.specs.Inner.Bounds.{InCalendar};
ghost use Rattle.matcher.specs.Inner.Flags.{Row};
ghost use Rattle.matcher.specs.Inner.Walk.{stays_on_by, step_by};

use super::Terms;
use rule::Day;

// Whether the day's period is the start's or a multiple of the interval later.
pub fn in_step(terms: Terms, x: Day) -> bool
    requires { (terms.first < 7) × (InCalendar x × (x.number < day_count)) }
    ensures { result ≡ step_by terms x }
{
    let interval = terms.interval;
    // Most rules: no division for each day.
    if interval == 1 {
        return true;
    }
    let period = super::periods::period_of(terms.frequency, terms.first, x);
    let later = period.saturating_sub(terms.period);
    later == 0 || (interval != 0 && u64::from(later) % interval == 0)
}

// How many of the n days from a day on stay.
pub fn count_in(flags: &[bool], inyear: bool, first: Day, n: u32) -> u32
    requires { Row (length flags.now) × ((first ≡ day_at first.number) × (first.number + n < day_count)) }
    ensures { result ≡ count_in (stays_on_by flags.now inyear) first.number n }
{
    let mut x = first;
    let mut found = 0;
    for _ in 0..n {
        if super::flags::stays(flags, inyear, x) {
            found += 1;
        }
        x = rule::days::next_day(x);
    }
    found
}
