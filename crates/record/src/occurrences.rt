// The record of one occurrence: its times in UTC, and its marks.
ghost use Rattle.std.specs.Prelude.{◌≡◌, length};
ghost use Rattle.std.proofs.lemmas.List.Edits.{sets};
ghost use Rattle.sheet.specs.Writing.{row_bytes};
ghost use Rattle.record.specs.Inner.Occurrences.{occurrence_row, PutsRecord};

use crate::Times;
use crate::rows::{marks, put_record};
use crate::utc::{START, end_of, offset_of, to_utc};
use crate::window::since_1970;

// The record of the occurrence `id` at a place of the buffer. The two hints say where in the zone table the last offsets were found: any are
// right, so which ones are left is not promised.
pub fn put_occurrence(
    buf: &mut [u8],
    at: usize,
    id: u64,
    times: Times,
    initial: i64,
    instants: &[i64],
    offsets: &[i64],
    hints: &mut [usize],
)
    requires { PutsRecord (length buf.old) at id times initial instants.now offsets.now (length hints.old) }
    ensures { buf.new ≡ sets buf.old at (row_bytes (occurrence_row initial instants.now offsets.now id times)) }
{
    let local = since_1970(times.start);
    let offset = offset_of(
        times.floating,
        initial,
        instants,
        offsets,
        local,
        hints,
        START,
    );
    let start = to_utc(local, offset);
    let end = end_of(times, offset, initial, instants, offsets, hints);
    let m = marks(times.busy, times.allday, times.floating);
    put_record(buf, at, since_1970(id), start, end, m);
}
