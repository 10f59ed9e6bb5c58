// The days of a month that stay, and those of them that set positions choose, written into a row of answers.
ghost use Rattle.std.specs.Prelude.{if◌then◌else◌, true, false, ◌≡◌, ◌+◌, ◌<◌, ◌≤◌, length};
ghost use Rattle.rule.specs.Lists.{count_in};
ghost use Rattle.matcher.specs.Inner.Flags.{Row, Places, named};
ghost use Rattle.matcher.specs.Inner.Layout.{positions_at, positions_back};
ghost use Rattle.months.specs.Inner.Kinds.{Kind, stays_in, chosen_in, picks_in};
ghost use Rattle.months.specs.Inner.Rows.{answer_at, Wrote, Writing};
ghost use Rattle.months.specs.Inner.Week.{NoPlaces};

use super::layout::{KINDS, PLAIN};
use matcher::layout::{DATES, DATES_BACK, POSITIONS, POSITIONS_BACK, WEEKDAYS};

// The flag of the first day of a month.
const FIRST_DATE: usize = DATES + 1;

// Day k, from 0, of a month with that many days and with its first on that weekday.
#[tactic(auto, unfolding(crate::specs::Inner::Kinds::stays_in))]
fn stays_in(flags: &[bool], weekday: u32, days: u32, k: u32) -> bool
    requires { Row (length flags.now) × (Kind weekday days × (k < days)) }
    ensures { result ≡ stays_in flags.now weekday days k }
{
    let here = (weekday + k) % 7;
    matcher::flags::is_named(flags, DATES, DATES_BACK, k + 1, days)
        && (flags[WEEKDAYS + here as usize] || matcher::flags::is_nth(flags, here, k, days))
}

// One day after the other, with the places of the weekdays.
fn write_each(flags: &[bool], weekday: u32, days: u32, rows: &mut [bool], at: usize)
    requires { Row (length flags.now) × (Kind weekday days × (at + days ≤ length rows.old)) }
    ensures { Wrote (stays_in flags.now weekday days) rows.old at days rows.new }
{
    for k in 0..days {
        rows[at + k as usize] = stays_in(flags, weekday, days, k);
    }
}

// No branch and no division, so that many days are written at once.
fn write_plain(flags: &[bool], weekday: usize, days: usize, rows: &mut [bool], at: usize)
    requires { NoPlaces flags.now × Writing flags.now weekday days rows.old at }
    ensures { Wrote (stays_in flags.now weekday days) rows.old at days rows.new }
{
    for k in 0..days {
        let date = flags[FIRST_DATE + k] | flags[DATES_BACK + days - k];
        rows[at + k] = date & rows[KINDS + weekday + k];
    }
}

fn write_days(flags: &[bool], weekday: u32, days: u32, rows: &mut [bool], at: usize)
    requires { Writing flags.now weekday days rows.old at }
    ensures { Wrote (stays_in flags.now weekday days) rows.old at days rows.new }
{
    if rows[PLAIN] {
        write_plain(flags, weekday as usize, days as usize, rows, at);
    } else {
        write_each(flags, weekday, days, rows, at);
    }
}

// n, and one more where the answer is yes.
pub fn one_more(n: u32, yes: bool) -> u32
    requires { n < 4294967295 }
    ensures { result ≡ n + (if yes then 1 else 0) }
{
    n + u32::from(yes)
}

pub(crate) fn count_days(rows: &[bool], at: usize, days: u32) -> u32
    requires { (days ≤ 1000) × (at + days ≤ length rows.now) }
    ensures { result ≡ count_in (answer_at rows.now at) 0 days }
{
    let mut found = 0;
    for &yes in &rows[at..at + days as usize] {
        found = one_more(found, yes);
    }
    found
}

// A day that stays has a place among those that do.
fn is_chosen(flags: &[bool], stays: bool, seen: u32, total: u32) -> bool
    requires { stays ≡ true → Places (length flags.now) positions_at positions_back (seen + 1) total }
    ensures { result ≡ (if stays then named flags.now positions_at positions_back (seen + 1) total else false) }
{
    stays && matcher::flags::is_named(flags, POSITIONS, POSITIONS_BACK, seen + 1, total)
}

fn choose_days(flags: &[bool], days: u32, rows: &mut [bool], at: usize)
    requires { Row (length flags.now) × ((days ≤ 31) × (at + days ≤ length rows.old)) }
    ensures { Wrote (chosen_in flags.now (answer_at rows.old at) days) rows.old at days rows.new }
{
    let total = count_days(rows, at, days);
    let mut seen = 0;
    for k in 0..days {
        let stays = rows[at + k as usize];
        rows[at + k as usize] = is_chosen(flags, stays, seen, total);
        seen = one_more(seen, stays);
    }
}

pub(crate) fn write_row(
    flags: &[bool],
    placed: bool,
    weekday: u32,
    days: u32,
    rows: &mut [bool],
    at: usize,
)
    requires { Writing flags.now weekday days rows.old at }
    ensures { Wrote (picks_in placed flags.now weekday days) rows.old at days rows.new }
{
    write_days(flags, weekday, days, rows, at);
    if placed {
        choose_days(flags, days, rows, at);
    }
}
