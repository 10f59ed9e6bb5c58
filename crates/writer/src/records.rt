// The records of a chunk of ids: the one loop that writes records.
ghost use Rattle.std.specs.Prelude.{length};
ghost use Rattle.writer.specs.Inner.Writes.{WritesAt, WroteChunk, row_for};

use crate::Form;
use crate::times::times_at;
use record::occurrences::put_occurrence;

// One after the other, the first of them at a place of the buffer; the place after the last one.
pub fn write_records(
    buffer: &mut [u8],
    at: usize,
    chunk: &[u64],
    text: &[u8],
    ends: &[u32],
    form: Form,
    ids: &[u64],
    places: &[usize],
    initial: i64,
    instants: &[i64],
    offsets: &[i64],
) -> usize
    requires { WritesAt (length buffer.old) at chunk.now text.now ends.now form ids.now places.now initial instants.now offsets.now }
    ensures { WroteChunk (row_for text.now form ids.now places.now initial instants.now offsets.now)
        chunk.now at buffer.old buffer.new result }
{
    let mut hints = [0usize; 2];
    let mut place = at;
    for x in chunk {
        let t = times_at(text, ends, form, ids, places, *x);
        put_occurrence(buffer, place, *x, t, initial, instants, offsets, &mut hints);
        place += 28;
    }
    place
}
