// Runs dates, seconds and days of the month against the proved functions and prints a line for each. What must be printed is found anew by
// tests/calendar_vectors.py.
#![tactic(auto)]

use gregorian::{Date, Moment};
use show::{Iso, Local, Weekday};
use std::io;

fn show_date(rt: &impl Print, year: u32, month: u32, day: u32) -> io::Result<()> {
    let date = Date { year, month, day };
    if !calendar::days::is_date(date) {
        return println!(rt; "{}: no date", Iso(date));
    }
    let n = calendar::days::day_number(date);
    let weekday = Weekday(calendar::days::weekday(n));
    println!(rt; "{}: day {n} {weekday}", Iso(date))
}

fn show_day(rt: &impl Print, n: u32) -> io::Result<()> {
    if 3068036 < n {
        return println!(rt; "day {n}: none");
    }
    println!(rt; "day {n}: {}", Iso(calendar::days::date_of(n)))
}

fn show_seconds(rt: &impl Print, t: i64) -> io::Result<()> {
    println!(rt; "{t}: {}", Local(t))
}

// The seconds of a day and a second of it.
fn show_moment(rt: &impl Print, day: u32, second: u32) -> io::Result<()> {
    if 3068036 < day || 86399 < second {
        return println!(rt; "day {day} second {second}: none");
    }
    let seconds = calendar::seconds::seconds_of(Moment { day, second });
    println!(rt; "day {day} second {second}: {seconds}")
}

fn show_month_day(rt: &impl Print, year: u32, month: u32, z: i64) -> io::Result<()> {
    let day = calendar::month::month_day(year, month, z);
    println!(rt; "{z} of {year:04}-{month:02}: {day}")
}

// Every day of the calendar to its date and back: how many come back as they were, and a checksum of all dates and weekdays.
fn sweep(rt: &impl Print) -> io::Result<()> {
    let mut same: u64 = 0;
    let mut sum: u64 = 0;
    for n in 0..3068037 {
        let d = calendar::days::date_of(n);
        sum = mixed(sum, d, calendar::days::weekday(n));
        if came_back(d, n) {
            same += 1;
        }
    }
    println!(rt; "days that come back: {same}, checksum {sum}")
}

// The checksum with one day more.
fn mixed(sum: u64, d: Date, weekday: u32) -> u64 {
    let next = sum % 1000003 * 8191
        + u64::from(d.year) * 372
        + u64::from(d.month) * 31
        + u64::from(d.day) * 7
        + u64::from(weekday);
    next % 1000003
}

// Whether d is a date and its day is n.
fn came_back(d: Date, n: u32) -> bool {
    calendar::days::is_date(d) && calendar::days::day_number(d) == n
}

// The dates of document 01's worked dates, and their neighbours.
fn worked_dates(rt: &impl Print) -> io::Result<()> {
    show_date(rt, 2018, 1, 15)?;
    show_date(rt, 2020, 11, 1)?;
    show_date(rt, 2020, 10, 4)?;
    show_date(rt, 2024, 1, 31)?;
    show_date(rt, 2024, 2, 29)?;
    show_date(rt, 2023, 2, 29)?;
    show_date(rt, 2024, 3, 31)?;
    show_date(rt, 2028, 2, 29)?;
    show_date(rt, 1997, 8, 5)?;
    show_date(rt, 2024, 1, 3)?;
    show_date(rt, 2024, 5, 31)?;
    show_date(rt, 2024, 6, 28)?;
    show_seconds(rt, 1516021200)?;
    show_seconds(rt, 1604194200)?;
    show_seconds(rt, 1601778600)
}

fn ends_of_the_calendar(rt: &impl Print) -> io::Result<()> {
    show_date(rt, 1599, 12, 31)?;
    show_date(rt, 1600, 1, 1)?;
    show_date(rt, 1600, 2, 29)?;
    show_date(rt, 1601, 1, 1)?;
    show_date(rt, 1700, 2, 29)?;
    show_date(rt, 1900, 2, 28)?;
    show_date(rt, 1999, 12, 31)?;
    show_date(rt, 2000, 1, 1)?;
    show_date(rt, 2000, 2, 29)?;
    show_date(rt, 2100, 2, 29)?;
    show_date(rt, 9998, 12, 31)?;
    show_date(rt, 9999, 12, 31)?;
    show_date(rt, 10000, 1, 1)?;
    show_day(rt, 0)?;
    show_day(rt, 366)?;
    show_day(rt, 146096)?;
    show_day(rt, 146097)?;
    show_day(rt, 3068036)?;
    show_day(rt, 3068037)
}

fn no_dates(rt: &impl Print) -> io::Result<()> {
    show_date(rt, 2024, 0, 1)?;
    show_date(rt, 2024, 13, 1)?;
    show_date(rt, 2024, 4, 31)?;
    show_date(rt, 2024, 4, 0)?;
    show_date(rt, 2024, 12, 32)?;
    show_date(rt, 4294967295, 4294967295, 4294967295)
}

// Before 1970 a second belongs to the day that it lies in, and not to the one nearer to 1970.
fn seconds(rt: &impl Print) -> io::Result<()> {
    show_seconds(rt, 0)?;
    show_seconds(rt, -1)?;
    show_seconds(rt, -86400)?;
    show_seconds(rt, -86401)?;
    show_seconds(rt, 86399)?;
    show_seconds(rt, 86400)?;
    show_seconds(rt, -11644473600)?;
    show_seconds(rt, -11676096000)?;
    show_seconds(rt, -11676096001)?;
    show_seconds(rt, 253370764800)?;
    show_seconds(rt, 253402300799)?;
    show_seconds(rt, 253402300800)?;
    show_seconds(rt, 9223372036854775807)?;
    show_seconds(rt, -9223372036854775808)
}

fn moments(rt: &impl Print) -> io::Result<()> {
    show_moment(rt, 0, 0)?;
    show_moment(rt, 135139, 86399)?;
    show_moment(rt, 135140, 0)?;
    show_moment(rt, 152686, 46800)?;
    show_moment(rt, 3068036, 86399)?;
    show_moment(rt, 3068037, 0)?;
    show_moment(rt, 0, 86400)
}

fn days_of_the_month(rt: &impl Print) -> io::Result<()> {
    show_month_day(rt, 2024, 2, -1)?;
    show_month_day(rt, 2023, 2, -1)?;
    show_month_day(rt, 2024, 2, -29)?;
    show_month_day(rt, 2023, 2, -29)?;
    show_month_day(rt, 2024, 4, 30)?;
    show_month_day(rt, 2024, 4, 31)?;
    show_month_day(rt, 2024, 4, -31)?;
    show_month_day(rt, 2024, 1, 1)?;
    show_month_day(rt, 2024, 1, 0)?;
    show_month_day(rt, 2024, 13, 1)?;
    show_month_day(rt, 2024, 1, 9223372036854775807)?;
    show_month_day(rt, 2024, 1, -9223372036854775808)
}

fn main(rt: HostRuntime) -> io::Result<()> {
    worked_dates(&rt)?;
    ends_of_the_calendar(&rt)?;
    no_dates(&rt)?;
    seconds(&rt)?;
    moments(&rt)?;
    days_of_the_month(&rt)?;
    sweep(&rt)
}
