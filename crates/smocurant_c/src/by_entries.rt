// The table of occurrences, its zone table lent as a run of entries.
ghost use Rattle.call_definitions.specs.Call.{expand_text};
ghost use Rattle.call_definitions.specs.Results.{zones_of, Gives};
ghost use Rattle.entries.specs.Gather.{instants_of, offsets_of};

use entries::Transition;

#[unsafe(no_mangle)]
pub extern "C" fn smocurant_expand_entries(
    text: &[u8],
    zone_name: &[u8],
    initial_offset: i64,
    entries: &[Transition],
    window_start: i64,
    window_end: i64,
    buffer: &mut [u8],
    length: &mut u64,
) -> u32
    ensures { Gives (expand_text (zones_of zone_name.now initial_offset (instants_of entries.now) (offsets_of entries.now)) text.now window_start window_end buffer.old) result length.new buffer.new }
{
    smocurant::by_entries::smocurant_expand_entries(
        text,
        zone_name,
        initial_offset,
        entries,
        window_start,
        window_end,
        buffer,
        length,
    )
}
