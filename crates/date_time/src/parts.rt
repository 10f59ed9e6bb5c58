// The parts of a date-time.
ghost use Rattle.std.specs.Prelude.{◌≡◌, ◌≤◌};
ghost use Rattle.date_time.specs.Parts.{date_at, is_time, is_real, second_of_day};

use calendar::month::month_length;
use digits::{four, two};
use gregorian::Date;

#[tactic(auto, unfolding(crate::specs::Parts::date_at))]
pub(crate) fn date(raw: &[u8]) -> Date
    ensures { result ≡ date_at raw.now }
{
    let year = four(raw, 0);
    let month = two(raw, 5);
    let day = two(raw, 8);
    Date { year, month, day }
}

#[tactic(auto, unfolding(crate::specs::Parts::is_time))]
pub(crate) fn is_time(raw: &[u8]) -> bool
    ensures { result ≡ is_time raw.now }
{
    two(raw, 11) <= 23 && two(raw, 14) <= 59 && two(raw, 17) <= 59
}

// Has the month this day?
#[tactic(auto, unfolding(crate::specs::Parts::is_real))]
pub(crate) fn is_real(date: Date) -> bool
    ensures { result ≡ is_real date }
{
    1 <= date.day && date.day <= month_length(date.year, date.month)
}

#[tactic(auto, unfolding(crate::specs::Parts::second_of_day))]
pub(crate) fn second_of_day(raw: &[u8]) -> u32
    ensures { result ≡ second_of_day raw.now }
{
    let hour = two(raw, 11);
    let minute = two(raw, 14);
    let second = two(raw, 17);
    3600 * hour + 60 * minute + second
}
