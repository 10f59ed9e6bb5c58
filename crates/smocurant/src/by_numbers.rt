// The table of occurrences, its zone table lent as two runs of numbers.
ghost use Rattle.call_definitions.specs.Call.{expand_text};
ghost use Rattle.call_definitions.specs.Results.{zones_of, Gives};

use expansion::expand::expand_in;

// Most texts are short, and need not clear the room of the longest: the table of ends has as many entries as the text has bytes. A longer text
// than 65,536 bytes is refused.
pub fn smocurant_expand(
    text: &[u8],
    zone_name: &[u8],
    initial_offset: i64,
    instants: &[i64],
    offsets: &[i64],
    window_start: i64,
    window_end: i64,
    buffer: &mut [u8],
    length: &mut u64,
) -> u32
    ensures { Gives (expand_text (zones_of zone_name.now initial_offset instants.now offsets.now) text.now window_start window_end buffer.old) result length.new buffer.new }
{
    if text.len() <= 2048 {
        let mut ends = [0u32; 2048];
        let done = expand_in(
            text,
            &mut ends,
            zone_name,
            initial_offset,
            instants,
            offsets,
            window_start,
            window_end,
            buffer,
        );
        *length = done.length;
        return done.answer;
    }
    let mut ends = [0u32; 65536];
    let done = expand_in(
        text,
        &mut ends,
        zone_name,
        initial_offset,
        instants,
        offsets,
        window_start,
        window_end,
        buffer,
    );
    *length = done.length;
    done.answer
}
