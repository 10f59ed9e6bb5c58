// 01: "lent slice of entry structs in a thin outer function; the core first works over slices of numbers".
ghost use Rattle.std.specs.Prelude.{◌≤◌, length as length_of, take};
ghost use Rattle.call_definitions.specs.Call.{expand_text};
ghost use Rattle.call_definitions.specs.Results.{zones_of, Gives};
ghost use Rattle.entries.specs.Gather.{instants_of, offsets_of};

use crate::by_numbers::smocurant_expand;
use entries::Transition;

// The first n numbers of both runs are lent to the core.
fn with_numbers(
    text: &[u8],
    zone_name: &[u8],
    initial_offset: i64,
    instants: &[i64],
    offsets: &[i64],
    n: usize,
    window_start: i64,
    window_end: i64,
    buffer: &mut [u8],
    length: &mut u64,
) -> u32
    requires { (n ≤ length_of instants.now) × (n ≤ length_of offsets.now) }
    ensures { Gives (expand_text (zones_of zone_name.now initial_offset (take n instants.now) (take n offsets.now)) text.now window_start window_end buffer.old) result length.new buffer.new }
{
    smocurant_expand(
        text,
        zone_name,
        initial_offset,
        &instants[..n],
        &offsets[..n],
        window_start,
        window_end,
        buffer,
        length,
    )
}

// The arrays stay where they are: they are lent to be filled, and then to be read.
pub fn smocurant_expand_entries(
    text: &[u8],
    zone_name: &[u8],
    initial_offset: i64,
    entries: &[Transition],
    window_start: i64,
    window_end: i64,
    buffer: &mut [u8],
    length: &mut u64,
) -> u32
    ensures { Gives (expand_text (zones_of zone_name.now initial_offset (instants_of entries.now) (offsets_of entries.now)) text.now window_start window_end buffer.old) result length.new buffer.new }
{
    let mut instants = [0i64; 1025];
    let mut offsets = [0i64; 1025];
    let n = entries::gather(entries, &mut instants, &mut offsets);
    with_numbers(
        text,
        zone_name,
        initial_offset,
        &instants,
        &offsets,
        n,
        window_start,
        window_end,
        buffer,
        length,
    )
}
