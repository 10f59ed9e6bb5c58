// Marking a row of flags from a rule's by-lists, entry by entry.
ghost use Rattle.std.proofs.Math.Option.{some};
ghost use Rattle.std.specs.Prelude.{◌≡◌, ◌+◌, ◌*◌, ◌<◌, ◌≤◌, length};
ghost use Rattle.rule.specs.Inner.Read.{ndays, nth_from};
ghost use Rattle.matcher.specs.Inner.Layout.{positions_at};
ghost use Rattle.matcher.specs.Inner.Marks.{mark_one, mark_each, mark_place, mark_places, mark_nth, mark_days, mark_all};

use super::layout::{NTHS, NTHS_BACK, WEEKDAYS};

// Flag i of the `limit` flags from `at` on; a number beyond them names nothing.
#[tactic(auto, unfolding(crate::specs::Inner::Marks::mark_one))]
pub(crate) fn mark(flags: &mut [bool], at: usize, limit: usize, i: u64)
    requires { at + limit ≤ length flags.old }
    ensures { flags.new ≡ mark_one flags.old at limit i }
{
    if i < limit as u64 {
        flags[at + i as usize] = true;
    }
}

pub(crate) fn mark_all(flags: &mut [bool], at: usize, n: usize)
    requires { at + n ≤ length flags.old }
    ensures { flags.new ≡ mark_all flags.old at n }
{
    // As a slice's fill, a rule took a third longer to settle.
    for i in at..at + n {
        flags[i] = true;
    }
}

pub(crate) fn mark_each(list: &[u32], flags: &mut [bool], at: usize, limit: usize)
    requires { at + limit ≤ length flags.old }
    ensures { flags.new ≡ mark_each flags.old at limit list.now }
{
    for &i in list {
        mark(flags, at, limit, u64::from(i));
    }
}

// A signed number: its place, or its place from the end.
#[tactic(auto, unfolding(crate::specs::Inner::Marks::mark_place))]
fn mark_place(z: i64, flags: &mut [bool], on: usize, back: usize, limit: usize)
    requires { (on + limit ≤ length flags.old) × (back + limit ≤ length flags.old) }
    ensures { flags.new ≡ mark_place flags.old on back limit z }
{
    mark(flags, on, limit, signed::positive_part(z));
    mark(flags, back, limit, signed::negative_part(z));
}

pub(crate) fn mark_places(list: &[i64], flags: &mut [bool], on: usize, back: usize, limit: usize)
    requires { (on + limit ≤ length flags.old) × (back + limit ≤ length flags.old) }
    ensures { flags.new ≡ mark_places flags.old on back limit list.now }
{
    for &z in list {
        mark_place(z, flags, on, back, limit);
    }
}

// A weekday with its place in the month or year.
#[tactic(auto, unfolding(crate::specs::Inner::Marks::mark_nth))]
fn mark_weekday(weekday: u32, z: i64, flags: &mut [bool])
    requires { positions_at ≤ length flags.old }
    ensures { flags.new ≡ mark_nth flags.old weekday (some z) }
{
    if weekday < 7 {
        let at = 54 * weekday as usize;
        mark_place(z, flags, NTHS + at, NTHS_BACK + at, 54);
    }
}

// An entry of byDay; 0 stands for no nthOfPeriod.
fn mark_nth(weekday: u32, z: i64, flags: &mut [bool])
    requires { positions_at ≤ length flags.old }
    ensures { flags.new ≡ mark_nth flags.old weekday (nth_from z) }
{
    if z == 0 {
        mark(flags, WEEKDAYS, 7, u64::from(weekday));
    } else {
        mark_weekday(weekday, z, flags);
    }
}

pub(crate) fn mark_days(weekdays: &[u32], nths: &[i64], flags: &mut [bool])
    requires { (positions_at ≤ length flags.old) × (length weekdays.now ≡ length nths.now) }
    ensures { flags.new ≡ mark_days flags.old (ndays weekdays.now nths.now) }
{
    for (&weekday, &z) in weekdays.iter().zip(nths) {
        mark_nth(weekday, z, flags);
    }
}
