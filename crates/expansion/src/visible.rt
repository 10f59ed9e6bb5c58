// The table of an event that is not secret: what the call keeps of it is loaded once, then its table is put into the buffer.
ghost use Rattle.std.specs.Prelude.{List, ℕ};
ghost use Rattle.event.specs.Event.{event_of};
ghost use Rattle.call_definitions.specs.Results.{zones_of, Gives};
ghost use Rattle.writer.specs.Inner.Table.{fitted};
ghost use Rattle.expansion.specs.Inner.Visible.{table_for, Visible};

use crate::table::put_table;
use event_text::Head;
use loading::limits::limit_of;
use loading::whole::load;
use matcher::layout::LISTS;
use window::Window;
use writer::Done;

// The room of the longest lists: 16 rules, and 256 overrides.
pub(crate) fn put_visible(
    text: &[u8],
    ends: &[u32],
    head: Head,
    initial: i64,
    instants: &[i64],
    offsets: &[i64],
    window: Window,
    buffer: &mut [u8],
) -> Done
    requires { Visible text.now ends.now head initial instants.now offsets.now window.from window.to }
    ensures { (name : List ℕ) → Gives (fitted (table_for (zones_of name initial instants.now offsets.now) (event_of text.now) window.from window.to) buffer.old) result.answer result.length buffer.new }
{
    let mut rows = [false; LISTS];
    let mut ids = [0u64; 256];
    let mut gone = [false; 256];
    let mut places = [0usize; 256];
    let kept = load(
        text,
        ends,
        head,
        limit_of(window.to),
        &mut rows,
        &mut ids,
        &mut gone,
        &mut places,
    );
    let n = kept.count;
    put_table(
        buffer,
        text,
        ends,
        kept,
        &rows,
        &ids[..n],
        &gone[..n],
        &places[..n],
        initial,
        instants,
        offsets,
        window,
    )
}
