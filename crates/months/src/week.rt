// The weekdays one after the other, so that the days of a month are asked together.
ghost use Rattle.std.specs.Prelude.{true, false, ◌≡◌, length, get_or};
ghost use Rattle.matcher.specs.Inner.Flags.{Row};
ghost use Rattle.months.specs.Inner.Layout.{kinds_size, week_size, ready_at, answers_size};
ghost use Rattle.months.specs.Inner.Rows.{Wrote};
ghost use Rattle.months.specs.Inner.Week.{week_at, NoPlaces, Week, Prepared};

use super::layout::{KINDS, PLAIN, READY, WEEK};
use matcher::layout::{NTHS, NTHS_SIZE, WEEKDAYS};

fn write_week(flags: &[bool], rows: &mut [bool])
    requires { Row (length flags.now) × (length rows.old ≡ answers_size) }
    ensures { Wrote (week_at flags.now) rows.old kinds_size week_size rows.new }
{
    for k in 0..WEEK {
        rows[KINDS + k] = flags[WEEKDAYS + k % 7];
    }
}

// Some weekday is asked for by its place.
fn has_places(flags: &[bool]) -> bool
    requires { Row (length flags.now) }
    ensures { result ≡ false → NoPlaces flags.now }
{
    0 < super::rows::count_days(flags, NTHS, NTHS_SIZE)
}

pub(crate) fn prepare(flags: &[bool], rows: &mut [bool])
    requires { Row (length flags.now) × ((length rows.old ≡ answers_size) × (get_or rows.old ready_at false ≡ true → Week flags.now rows.old)) }
    ensures { Prepared flags.now rows.old rows.new }
{
    if rows[READY] {
        return;
    }
    write_week(flags, rows);
    rows[PLAIN] = !has_places(flags);
    rows[READY] = true;
}
