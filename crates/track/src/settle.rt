// A rule, settled for one call: its row of flags marked, its terms, and the day that ends it.
ghost use Rattle.std.specs.Prelude.{◌≡◌, ◌/◌, ◌<◌, ◌≤◌, length};
ghost use Rattle.rule.specs.Inner.Read.{Sized};
ghost use Rattle.track.specs.Inner.Settle.{Settling, SettledBy};

use super::Track;
use rule::Rule;

// The row has no flag set before. No day from `limit` on is asked for after.
pub fn settle(excluded: bool, rule: Rule, start: u64, limit: u32, row: &mut [bool]) -> Track
    requires { Sized rule × Settling (length row.old) start limit }
    ensures { SettledBy excluded rule start limit row.old row.new result }
{
    let first = rule::days::day_of((start / 86400) as u32);
    let terms = matcher::rows::terms_of(&rule, first);
    matcher::rows::mark_row(&rule, first, row);
    let end = rule.end;
    let last = super::last::last_day(excluded, end, terms, row, start, limit);
    Track { terms, last }
}
