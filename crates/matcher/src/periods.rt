// Periods: the number of a day's period, the days of the period before it, and all of them.
ghost use Rattle.std.specs.Prelude.{◌≡◌, ◌<◌};
ghost use Rattle.gregorian.specs.Days.{day_count};
ghost use Rattle.rule.specs.Period.{period_of, since_first, days_of};
ghost use Rattle.rule.specs.Inner.Bounds.{InCalendar};

use rule::{Day, Frequency};

#[tactic(auto, unfolding(rule::specs::Period::period_of))]
pub fn period_of(frequency: Frequency, first: u32, x: Day) -> u32
    requires { (first < 7) × (InCalendar x × (x.number < day_count)) }
    ensures { result ≡ period_of frequency first x }
{
    match frequency {
        Frequency::Daily => x.number,
        Frequency::Weekly => (x.number + 12 - first) / 7,
        Frequency::Monthly => 12 * x.year + x.month,
        Frequency::Yearly => x.year,
    }
}

#[tactic(auto, unfolding(rule::specs::Period::since_first))]
pub fn since_first(frequency: Frequency, first: u32, x: Day) -> u32
    requires { (first < 7) × (InCalendar x × (x.number < day_count)) }
    ensures { result ≡ since_first frequency first x }
{
    match frequency {
        Frequency::Daily => 0,
        Frequency::Weekly => (x.number + 12 - first) % 7,
        Frequency::Monthly => x.monthday - 1,
        Frequency::Yearly => x.yearday,
    }
}

#[tactic(auto, unfolding(rule::specs::Period::days_of))]
pub fn days_of(frequency: Frequency, x: Day) -> u32
    ensures { result ≡ days_of frequency x }
{
    match frequency {
        Frequency::Daily => 1,
        Frequency::Weekly => 7,
        Frequency::Monthly => x.monthdays,
        Frequency::Yearly => x.yeardays,
    }
}
