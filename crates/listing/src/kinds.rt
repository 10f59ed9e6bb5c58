// The lists of the kinds of months that a rule has met: the days of months alike are listed once.
ghost use Rattle.std.specs.Prelude.{◌≡◌, ◌+◌, ◌≤◌, length};
ghost use Rattle.matcher.specs.Inner.Flags.{Row};
ghost use Rattle.months.specs.Inner.Kinds.{Kind};
ghost use Rattle.months.specs.Inner.Layout.{kinds_size, kind_size};
ghost use Rattle.months.specs.Inner.Rows.{Kept};
ghost use Rattle.listing.specs.Inner.Kinds.{KeptLists, ListAt, Wrote};

use crate::collect::collect;
use months::kinds::{keep, row_of};
use months::layout::LAST;

// The days of a row that are set, and 31 places on one more than their number.
fn write_list(row: &[bool], lists: &mut [u32], at: usize)
    requires { (length row.now ≤ 31) × ((at + kind_size ≤ length lists.old) × (length lists.old ≡ kinds_size)) }
    ensures { Wrote row.now lists.old at lists.new }
{
    let end = collect(row, 0, lists, at);
    lists[at + LAST] = (end - at) as u32 + 1;
}

// Where the list of a kind begins; it is written where it was not yet.
pub(crate) fn keep_list(
    flags: &[bool],
    placed: bool,
    weekday: u32,
    days: u32,
    rows: &mut [bool],
    lists: &mut [u32],
) -> usize
    requires { Row (length flags.now) × (Kind weekday days × (Kept placed flags.now rows.old × KeptLists placed flags.now lists.old)) }
    ensures { ListAt placed flags.now weekday days rows.new lists.new result }
{
    let at = row_of(weekday, days);
    if 0 < lists[at + LAST] {
        return at;
    }
    let row = keep(flags, placed, weekday, days, rows);
    write_list(&rows[row..row + days as usize], lists, at);
    at
}
