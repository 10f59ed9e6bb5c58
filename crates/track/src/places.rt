// Set positions that a period has too few days for.
ghost use Rattle.std.specs.Prelude.{◌≡◌, length};
ghost use Rattle.matcher.specs.Inner.Layout.{row_size};
ghost use Rattle.matcher.specs.Inner.Walk.{Asked};
ghost use Rattle.track.specs.Inner.Places.{most_days, Unset, InPeriod};

use matcher::Terms;
use matcher::layout::{POSITIONS, POSITIONS_BACK};
use rule::{Day, Frequency};

#[tactic(auto, unfolding(crate::specs::Inner::Places::most_days))]
pub(crate) fn most_days(frequency: Frequency) -> u32
    ensures { result ≡ most_days frequency }
{
    match frequency {
        Frequency::Daily => 1,
        Frequency::Weekly => 7,
        Frequency::Monthly => 31,
        Frequency::Yearly => 366,
    }
}

// The least number of days that a period must have for a set position to name one of them.
pub(crate) fn least_days(terms: Terms, flags: &[bool]) -> u32
    requires { length flags.now ≡ row_size }
    ensures { Unset flags.now result }
{
    if !terms.placed {
        return 1;
    }
    let most = most_days(terms.frequency);
    for k in 1..most + 1 {
        if flags[POSITIONS + k as usize] || flags[POSITIONS_BACK + k as usize] {
            return k;
        }
    }
    most + 1
}

// Days from this one on to the end of its period, or of the profile.
pub(crate) fn to_period_end(terms: Terms, x: Day) -> u32
    requires { Asked terms row_size x }
    ensures { InPeriod terms x result }
{
    let frequency = terms.frequency;
    let before = matcher::periods::since_first(frequency, terms.first, x);
    let rest = matcher::periods::days_of(frequency, x) - before;
    let known = 3067672 - x.number;
    known.min(rest)
}
