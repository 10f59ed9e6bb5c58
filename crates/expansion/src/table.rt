// The table of a window: its ids, a chunk at a time, become records, and the trailer stands after them.
ghost use Rattle.dates.specs.Inner.Dates.{dates_in};
ghost use Rattle.call_definitions.specs.Results.{Gives};
ghost use Rattle.writer.specs.Inner.Table.{table_by, fitted};
ghost use Rattle.writer.specs.Inner.Writes.{row_for};
ghost use Rattle.expansion.specs.Inner.Puts.{Puts};

use loading::Kept;
use record::rows::put_trailer;
use source::CHUNK;
use source::counting::has_room;
use source::whole::ids_from;
use window::Window;
use writer::Done;
use writer::records::write_records;

// 0 and the table's length, or 13 and no byte changed. Whether it fits is known before the first byte is written.
pub(crate) fn put_table(
    buffer: &mut [u8],
    text: &[u8],
    ends: &[u32],
    kept: Kept,
    rows: &[bool],
    ids: &[u64],
    gone: &[bool],
    places: &[usize],
    initial: i64,
    instants: &[i64],
    offsets: &[i64],
    window: Window,
) -> Done
    requires { Puts text.now ends.now kept rows.now ids.now gone.now places.now initial instants.now offsets.now window.from window.to }
    ensures { Gives (fitted (table_by
        (row_for text.now kept.form ids.now places.now initial instants.now offsets.now)
        (dates_in kept.dates rows.now ids.now gone.now) window.from window.to) buffer.old) result.answer result.length buffer.new }
{
    let dates = kept.dates;
    let form = kept.form;
    let to = window.to;
    let mut room = [0u64; CHUNK];
    let mut chunk = ids_from(dates, rows, ids, gone, window.from, to, &mut room);
    if !has_room(dates, rows, ids, gone, chunk, to, buffer.len()) {
        return Done {
            answer: 13,
            length: 0,
        };
    }
    let mut place = 0;
    let mut second = window.from;
    // No for: where the next turn begins is what the chunk says.
    while second < to {
        let n = chunk.count;
        place = write_records(
            buffer,
            place,
            &room[..n],
            text,
            ends,
            form,
            ids,
            places,
            initial,
            instants,
            offsets,
        );
        second = chunk.next;
        chunk = ids_from(dates, rows, ids, gone, second, to, &mut room);
    }
    put_trailer(buffer, place, (place / 28) as u64);
    let length = place as u64 + 12;
    Done { answer: 0, length }
}
