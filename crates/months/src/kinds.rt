// The rows of the kinds of months that a run has met: months alike are asked once.
ghost use Rattle.std.specs.Prelude.{◌≡◌, length};
ghost use Rattle.matcher.specs.Inner.Flags.{Row};
ghost use Rattle.months.specs.Inner.Kinds.{Kind};
ghost use Rattle.months.specs.Inner.Rows.{row_of, Kept, KeptAt};

use super::layout::LAST;

pub fn row_of(weekday: u32, days: u32) -> usize
    requires { Kind weekday days }
    ensures { result ≡ row_of weekday days }
{
    (224 * (days - 28) + 32 * weekday) as usize
}

// Where the row of a kind begins; it is written where it was not yet.
pub fn keep(flags: &[bool], placed: bool, weekday: u32, days: u32, rows: &mut [bool]) -> usize
    requires { Row (length flags.now) × (Kind weekday days × Kept placed flags.now rows.old) }
    ensures { KeptAt placed flags.now weekday days rows.new result }
{
    let at = row_of(weekday, days);
    if rows[at + LAST] {
        return at;
    }
    super::week::prepare(flags, rows);
    super::rows::write_row(flags, placed, weekday, days, rows, at);
    rows[at + LAST] = true;
    at
}
