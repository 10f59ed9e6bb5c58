// The ids of a window, as many as a lent slice has room for, by listed or by marked days.
ghost use Rattle.std.specs.Prelude.{length};
ghost use Rattle.dates.specs.Inner.Dates.{dates_in};
ghost use Rattle.window.specs.Inner.Handed.{Handed};
ghost use Rattle.source.specs.Inner.Asked.{Asked};

use crate::listed::{is_listed, listed};
use crate::marked::marked;
use dates::Dates;
use window::Chunk;

// The ids from the second `from` on and before the second that is answered, in order at the front of the slice. Where that second is before
// `to`, ask again from it on.
pub fn ids_from(
    dates: Dates,
    rows: &[bool],
    ids: &[u64],
    gone: &[bool],
    from: u64,
    to: u64,
    out: &mut [u64],
) -> Chunk
    requires { Asked dates (length rows.now) (length ids.now) (length gone.now) from to (length out.old) }
    ensures { Handed (dates_in dates rows.now ids.now gone.now) from to out.old out.new result.count result.next }
{
    if is_listed(dates, rows, ids, from, to) {
        listed(dates, rows, from, to, out)
    } else {
        marked(dates, rows, ids, gone, from, to, out)
    }
}
