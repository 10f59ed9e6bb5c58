// How many ids a window has, and whether a table of them fits into a buffer.
ghost use Rattle.std.specs.Prelude.{◌≡◌, ◌+◌, ◌-◌, leb, length};
ghost use Rattle.dates.specs.Inner.Dates.{dates_in, Whole};
ghost use Rattle.window.specs.Inner.Next.{day_from};
ghost use Rattle.window.specs.Inner.Lists.{list_in};
ghost use Rattle.window.specs.Inner.Handed.{Span};
ghost use Rattle.source.specs.Inner.Room.{Begun, HasRoom};

use crate::CHUNK;
use crate::whole::ids_from;
use dates::Dates;
use window::Chunk;
use window::next::day_from;

// How many ids a window has, a chunk at a time.
fn count_ids(dates: Dates, rows: &[bool], ids: &[u64], gone: &[bool], from: u64, to: u64) -> u64
    requires { Whole dates (length rows.now) (length ids.now) (length gone.now) × Span from to }
    ensures { result ≡ length (list_in (dates_in dates rows.now ids.now gone.now) from (to - from)) }
{
    let mut room = [0u64; CHUNK];
    let mut at = from;
    let mut found: u64 = 0;
    while at < to {
        let c = ids_from(dates, rows, ids, gone, at, to, &mut room);
        found += c.count as u64;
        at = c.next;
    }
    found
}

// Do so many places hold an id for each day of a stretch, and all overrides? Then they hold its ids, and nothing is counted.
fn holds_days(start: u64, overrides: usize, from: u64, to: u64, places: u64) -> bool
    requires { Span from to }
    ensures { result ≡ leb (day_from start to - day_from start from + overrides) places }
{
    let days = day_from(start, to) - day_from(start, from);
    days <= places && overrides as u64 <= places - days
}

// Does the table of a window fit into `size` bytes? Its first ids are found; those after them are counted only where it has to be.
pub fn has_room(
    dates: Dates,
    rows: &[bool],
    ids: &[u64],
    gone: &[bool],
    first: Chunk,
    to: u64,
    size: usize,
) -> bool
    requires { Begun dates (length rows.now) (length ids.now) (length gone.now) first.count first.next to }
    ensures { HasRoom (dates_in dates rows.now ids.now gone.now) first.count first.next to size result }
{
    if size < 12 {
        return false;
    }
    let places = ((size - 12) / 28) as u64;
    let count = first.count as u64;
    if places < count {
        return false;
    }
    first.next == to
        || holds_days(dates.start, ids.len(), first.next, to, places - count)
        || count_ids(dates, rows, ids, gone, first.next, to) <= places - count
}
