// LocalDateTime: a date and a time of day with no zone.
ghost use Rattle.std.specs.Prelude.{true, ◌≡◌};
ghost use Rattle.gregorian.specs.Days.{is_date};
ghost use Rattle.date_time.specs.Parts.{date_at};
ghost use Rattle.date_time.specs.Local.{is_local, fraction_fault, seconds_at, local_of};

use crate::DateTime;
use crate::parts::{date, is_time, second_of_day};
use crate::picture::follows;
use calendar::days::{day_number, is_date};
use digits::legal_fraction;
use json_text::bytes::byte;

// Is what stands before a fraction right?
#[tactic(auto, unfolding(crate::specs::Local::is_local))]
fn is_local(raw: &[u8], last: u32) -> bool
    ensures { result ≡ is_local last raw.now }
{
    let date = date(raw);
    follows(b"0000-00-00T00:00:00", raw)
        && is_date(date)
        && is_time(raw)
        && 1601 <= date.year
        && date.year <= last
}

// The fault of what stands after the seconds.
#[tactic(auto, unfolding(crate::specs::Local::fraction_fault))]
fn fraction_fault(raw: &[u8]) -> u32
    ensures { result ≡ fraction_fault raw.now }
{
    if byte(raw, 19) != 0x2E {
        return 21;
    }
    if legal_fraction(&raw[20..]) {
        return 8;
    }
    21
}

#[tactic(auto, unfolding(crate::specs::Local::seconds_at))]
fn seconds(raw: &[u8]) -> u64
    requires { is_date (date_at raw.now) ≡ true }
    ensures { result ≡ seconds_at raw.now }
{
    let day = day_number(date(raw));
    let second = second_of_day(raw);
    86400 * u64::from(day) + u64::from(second)
}

#[tactic(auto, unfolding(crate::specs::Local::local_of))]
pub fn local(raw: &[u8], last: u32) -> DateTime
    ensures { result ≡ local_of last raw.now }
{
    if !is_local(raw, last) {
        return DateTime::Fault(21);
    }
    if raw.len() == 19 {
        return DateTime::At(seconds(raw));
    }
    DateTime::Fault(fraction_fault(raw))
}
