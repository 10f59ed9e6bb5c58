// Local seconds from 1970-01-01T00:00:00, signed, as a day and the second of the day. Counted from 1600-01-01 they are natural numbers,
// whose division is the floor division of the signed ones: 1970-01-01 is a whole number of days later.
ghost use Rattle.std.specs.Prelude.{◌≡◌, ◌<◌};
ghost use Rattle.gregorian.specs.Days.{day_count};
ghost use Rattle.gregorian.specs.Inner.Seconds.{InCalendar, moment_of, seconds_of};

use gregorian::Moment;

// 135,140 days of 86,400 seconds.
const EPOCH: u64 = 11676096000;

pub fn moment_of(seconds: i64) -> Moment
    requires { InCalendar seconds }
    ensures { result ≡ moment_of seconds }
{
    let since = signed::positive_part(seconds) + EPOCH - signed::negative_part(seconds);
    Moment {
        day: (since / 86400) as u32,
        second: (since % 86400) as u32,
    }
}

pub fn seconds_of(moment: Moment) -> i64
    requires { (moment.day < day_count) × (moment.second < 86400) }
    ensures { result ≡ seconds_of moment }
{
    signed::difference(moment.day as u64 * 86400 + moment.second as u64, EPOCH)
}
