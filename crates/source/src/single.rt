// Whether one date-time is an id.
ghost use Rattle.std.specs.Prelude.{◌≡◌, ◌+◌, length};
ghost use Rattle.dates.specs.Inner.Dates.{dates_in};
ghost use Rattle.source.specs.Inner.Asked.{Asked};

use crate::whole::ids_from;
use dates::Dates;

// The ids of a window of one second: there is one, or none.
pub fn is_id(dates: Dates, rows: &[bool], ids: &[u64], gone: &[bool], x: u64) -> bool
    requires { Asked dates (length rows.now) (length ids.now) (length gone.now) x (x + 1) 32 }
    ensures { result ≡ dates_in dates rows.now ids.now gone.now x }
{
    let mut room = [0u64; 32];
    let chunk = ids_from(dates, rows, ids, gone, x, x + 1, &mut room);
    chunk.count == 1
}
