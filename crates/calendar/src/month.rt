// Months: their lengths, the days of the year before them, and signed days of the month.
ghost use Rattle.std.specs.Prelude.{◌≡◌, ◌≤◌};
ghost use Rattle.gregorian.specs.Month.{month_length, month_start, month_day};

// Of a common year, by the month's number.
const LENGTHS: [u32; 13] = [0, 31, 28, 31, 30, 31, 30, 31, 31, 30, 31, 30, 31];

const STARTS: [u32; 14] = [
    0, 0, 31, 59, 90, 120, 151, 181, 212, 243, 273, 304, 334, 365,
];

pub fn month_length(year: u32, month: u32) -> u32
    ensures { result ≡ month_length year month }
{
    if 12 < month {
        return 0;
    }
    if month == 2 {
        if super::year::is_leap(year) {
            return 29;
        }
        return 28;
    }
    LENGTHS[month as usize]
}

// The days of the year before a month; of month 13, all of its days.
pub fn month_start(year: u32, month: u32) -> u32
    requires { month ≤ 13 }
    ensures { result ≡ month_start year month }
{
    let start = STARTS[month as usize];
    if month < 3 {
        return start;
    }
    if super::year::is_leap(year) {
        return start + 1;
    }
    start
}

// The day of the month that a signed number names: -1 is the last. 0: the month has no such day.
pub fn month_day(year: u32, month: u32, day: i64) -> u32
    ensures { result ≡ month_day year month day }
{
    let length = month_length(year, month);
    signed::place(day, length as u64) as u32
}
