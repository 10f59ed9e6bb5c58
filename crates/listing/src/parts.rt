// The days of a rule in a part of a month, listed.
ghost use Rattle.std.specs.Prelude.{◌≡◌, length};
ghost use Rattle.matcher.specs.Inner.Walk.{Asked};
ghost use Rattle.months.specs.Inner.Rows.{Kept};
ghost use Rattle.track.specs.Inner.Plain.{InMonth};
ghost use Rattle.matcher.specs.Inner.Walk.{picks_on_by};
ghost use Rattle.listing.specs.Inner.Lists.{Listed};
ghost use Rattle.listing.specs.Inner.Parts.{ByMonths, Chosen, Kinds, Room, ListedPart};

use crate::collect::{collect, copy_from};
use crate::kinds::keep_list;
use matcher::Terms;
use months::kinds::keep;
use months::layout::LAST;
use rule::Day;
use track::alike::first_weekday;

// A whole month: its days stand in the list of its kind.
fn list_month(
    terms: Terms,
    flags: &[bool],
    rows: &mut [bool],
    lists: &mut [u32],
    x: Day,
    days: &mut [u32],
    at: usize,
) -> usize
    requires { Chosen terms flags.now x x.monthdays × (Kinds terms flags.now rows.old lists.old × Room (length days.old) at) }
    ensures { ListedPart terms flags.now x x.monthdays rows.new lists.new days.old at days.new result }
{
    let weekday = first_weekday(x);
    let list = keep_list(flags, terms.placed, weekday, x.monthdays, rows, lists);
    let n = lists[list + LAST] as usize - 1;
    copy_from(&lists[list..list + n], x.number, days, at)
}

// Some days of a month: they are collected from the row of its kind.
fn list_some(
    terms: Terms,
    flags: &[bool],
    rows: &mut [bool],
    x: Day,
    n: usize,
    days: &mut [u32],
    at: usize,
) -> usize
    requires { Chosen terms flags.now x n × (Kept terms.placed flags.now rows.old × Room (length days.old) at) }
    ensures { Listed (picks_on_by terms flags.now) x.number n days.old at days.new result × Kept terms.placed flags.now rows.new }
{
    let weekday = first_weekday(x);
    let row = keep(flags, terms.placed, weekday, x.monthdays, rows);
    let before = x.monthday - 1;
    let from = row + before as usize;
    collect(&rows[from..from + n], x.number, days, at)
}

// The n days of one month from x on.
pub(crate) fn list_part(
    terms: Terms,
    flags: &[bool],
    rows: &mut [bool],
    lists: &mut [u32],
    x: Day,
    n: usize,
    days: &mut [u32],
    at: usize,
) -> usize
    requires { (ByMonths terms flags.now × (Asked terms (length flags.now) x × InMonth x n)) × (Kinds terms flags.now rows.old lists.old × Room (length days.old) at) }
    ensures { ListedPart terms flags.now x n rows.new lists.new days.old at days.new result }
{
    if !matcher::flags::on_month(flags, x) || !matcher::walk::in_step(terms, x) {
        return at;
    }
    if n == x.monthdays as usize {
        return list_month(terms, flags, rows, lists, x, days, at);
    }
    list_some(terms, flags, rows, x, n, days, at)
}
