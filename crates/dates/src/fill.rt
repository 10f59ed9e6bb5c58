// A run of days, filled with the set of an event.
ghost use Rattle.std.specs.Prelude.{◌≡◌, ◌/◌, length};
ghost use Rattle.track.specs.Inner.Runs.{run};
ghost use Rattle.dates.specs.Inner.Tracked.{Run};
ghost use Rattle.dates.specs.Inner.Loaded.{is_on};
ghost use Rattle.dates.specs.Inner.Dates.{kept_dates, Whole};

use super::Dates;
use matcher::layout::LIST;

// Hit i: whether the day first + i at the start's time of day is in the set. The rules first, then the start, less the excluded rules, then
// the overrides, last those that exclude.
pub fn fill(dates: Dates, rows: &[bool], ids: &[u64], gone: &[bool], hits: &mut [bool], first: u32)
    requires { Whole dates (length rows.now) (length ids.now) (length gone.now) × Run first (length hits.old) }
    ensures { hits.new ≡ run (is_on (kept_dates dates rows.now ids.now gone.now)) first (length hits.old) }
{
    let start = dates.start;
    let begin = (start / 86400) as u32;
    hits.fill(false);
    super::marks::mark_tracks(dates.rules, &rows[..LIST], hits, first, begin, true);
    super::marks::mark_date(hits, first, start, start, true, true);
    super::marks::mark_tracks(dates.excluded, &rows[LIST..], hits, first, begin, false);
    super::marks::mark_ids(ids, gone, false, hits, first, start, true);
    super::marks::mark_ids(ids, gone, true, hits, first, start, false);
}
