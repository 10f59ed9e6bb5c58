// What a call keeps of an accepted event, loaded by one call.
ghost use Rattle.std.specs.Prelude.{length};
ghost use Rattle.loading.specs.Inner.Loads.{Loadable, Loads};

use crate::Kept;
use crate::lists::{load_list, load_overrides};
use dates::Dates;
use event_text::Head;
use event_text::heads::own_of;
use matcher::layout::LIST;
use opening::calls::is_floating;
use window::sorted::rises;
use writer::Form;

// Rules are settled up to the day `limit`. The rows are 16: eight for the rules, then eight for the excluded rules.
pub fn load(
    text: &[u8],
    ends: &[u32],
    head: Head,
    limit: u32,
    rows: &mut [bool],
    ids: &mut [u64],
    gone: &mut [bool],
    places: &mut [usize],
) -> Kept
    requires { Loadable text.now ends.now head limit (length rows.old) (length ids.old) (length gone.old) (length places.old) }
    ensures { Loads text.now limit rows.new ids.new gone.new places.new result }
{
    let own = own_of(head);
    let start = head.start;
    let rules = load_list(
        text,
        ends,
        head.rules,
        false,
        start,
        limit,
        &mut rows[..LIST],
    );
    let excluded = load_list(
        text,
        ends,
        head.excluded,
        true,
        start,
        limit,
        &mut rows[LIST..],
    );
    let count = load_overrides(text, ends, head.overrides, ids, gone, places);
    let sorted = rises(&ids[..count]);
    let floating = is_floating(text, head.zone);
    Kept {
        dates: Dates {
            start,
            rules,
            excluded,
        },
        form: Form {
            own,
            floating,
            sorted,
        },
        count,
    }
}
