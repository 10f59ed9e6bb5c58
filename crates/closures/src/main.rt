// Which weeks a hospital was shut: for each closure of whole days, local time, when it starts and ends in UTC, and the weeks from Monday
// that it touches with the days shut in each. The example is a Christmas closure and a bank holiday of a hospital in London.
#![tactic(auto)]

ghost use Rattle.std.specs.Prelude.{◌+◌, ◌≤◌, ◌<◌};
ghost use Rattle.gregorian.specs.Days.{day_count};

use gregorian::{Date, Moment};
use show::{Iso, Local};
use std::io;

// Europe/London from autumn 2024 to autumn 2025: the clock goes back, on, and back.
const INSTANTS: [i64; 3] = [1729990800, 1743296400, 1761440400];

const OFFSETS: [i64; 3] = [0, 3600, 0];

const SUMMER: i64 = 3600;

// UTC of midnight, where a day begins.
fn utc_of_day(rt: &impl Print, day: u32) -> io::Result<()>
    requires { day < day_count }
{
    let instants = INSTANTS;
    let offsets = OFFSETS;
    let local = calendar::seconds::seconds_of(Moment { day, second: 0 });
    if !zone::valid(SUMMER, &instants, &offsets) {
        return print!(rt; "no zone table");
    }
    let mut hint = 0;
    let utc = zone::utc(SUMMER, &instants, &offsets, local, &mut hint);
    print!(rt; "{}Z", Local(utc))
}

// The days from a to b that lie in the week from a Monday on.
fn days_in_week(a: u32, b: u32, monday: u32) -> u32
    requires { (b < day_count) × ((a ≤ b) × ((monday ≤ b) × (a < monday + 7))) }
    ensures { result ≤ 7 }
{
    b.min(monday + 6) - a.max(monday) + 1
}

fn show_week(rt: &impl Print, a: u32, b: u32, monday: u32) -> io::Result<()>
    requires { (b < day_count) × ((a ≤ b) × ((monday ≤ b) × (a < monday + 7))) }
{
    let date = Iso(calendar::days::date_of(monday));
    let shut = days_in_week(a, b, monday);
    println!(rt; "  week of {date}: shut on {shut} of 7 days")
}

// The weeks from that of day a to that of day b.
fn show_weeks(rt: &impl Print, a: u32, b: u32) -> io::Result<()>
    requires { (b < day_count) × (a ≤ b) }
{
    let Some(first) = a.checked_sub(calendar::days::weekday(a)) else {
        return Ok(());
    };
    for week in 0..=(b - first) / 7 {
        show_week(rt, a, b, first + 7 * week)?;
    }
    Ok(())
}

// A closure from one date to another, both shut.
fn closure(rt: &impl Print, first: Date, last: Date) -> io::Result<()> {
    if !calendar::days::is_date(first) || !calendar::days::is_date(last) {
        return println!(rt; "no date");
    }
    let a = calendar::days::day_number(first);
    let b = calendar::days::day_number(last);
    print!(rt; "shut from {} to {}", Iso(first), Iso(last))?;
    show_span(rt, a, b)
}

// When the closure starts and ends, and its weeks.
fn show_span(rt: &impl Print, a: u32, b: u32) -> io::Result<()> {
    if b < a {
        return println!(rt; ": ends before it starts");
    }
    if 3068035 < b {
        return println!(rt; ": ends with the calendar");
    }
    print!(rt; "\n  UTC from ")?;
    utc_of_day(rt, a)?;
    print!(rt; " to ")?;
    utc_of_day(rt, b + 1)?;
    println!(rt)?;
    show_weeks(rt, a, b)
}

fn main(rt: HostRuntime) -> io::Result<()> {
    closure(
        &rt,
        Date {
            year: 2024,
            month: 12,
            day: 21,
        },
        Date {
            year: 2025,
            month: 1,
            day: 5,
        },
    )?;
    closure(
        &rt,
        Date {
            year: 2025,
            month: 5,
            day: 5,
        },
        Date {
            year: 2025,
            month: 5,
            day: 5,
        },
    )
}
