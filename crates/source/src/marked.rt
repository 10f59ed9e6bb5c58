// The ids of a window by its marked days: a chunk of days is marked, and the ids are collected from it.
ghost use Rattle.std.specs.Prelude.{◌<◌, length};
ghost use Rattle.dates.specs.Inner.Dates.{dates_in};
ghost use Rattle.window.specs.Inner.Handed.{Handed};
ghost use Rattle.source.specs.Inner.Asked.{Asked};
ghost use Rattle.source.specs.Inner.Marks.{Marks};

use crate::DAYS;
use dates::Dates;
use dates::fill::fill;
use window::Chunk;
use window::chunks::chunk_end;
use window::collect::collect_run;

// As many days are marked at once as the window has, at most 1,024. A window that ends in the profile asks for no day after it.
fn days_at_once(from: u64, to: u64) -> usize
    requires { from < to }
    ensures { Marks from to result }
{
    let days = (to - 1) / 86400 - from / 86400 + 1;
    days.min(DAYS as u64) as usize
}

// The ids of the first days of the window, as many days as are marked at once and as many ids as the slice has room for.
pub(crate) fn marked(
    dates: Dates,
    rows: &[bool],
    ids: &[u64],
    gone: &[bool],
    from: u64,
    to: u64,
    out: &mut [u64],
) -> Chunk
    requires { Asked dates (length rows.now) (length ids.now) (length gone.now) from to (length out.old) }
    ensures { Handed (dates_in dates rows.now ids.now gone.now) from to out.old out.new result.count result.next }
{
    if to <= from {
        return Chunk {
            count: 0,
            next: from,
        };
    }
    let mut hits = [false; DAYS];
    let k = days_at_once(from, to);
    let end = chunk_end(from, to, k);
    let first = (from / 86400) as u32;
    fill(dates, rows, ids, gone, &mut hits[..k], first);
    collect_run(&hits[..k], first, dates.start, ids, gone, from, end, out)
}
