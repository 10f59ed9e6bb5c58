// The overrides as lists, in lent slices: their date-times, which of them are excluded, and the places of their patches.
ghost use Rattle.std.specs.Prelude.{ℕ, suc, ◌≤◌, ◌≡◌, length};
ghost use Rattle.json_walk.specs.Walk.{members_of};
ghost use Rattle.json_ends.specs.Inner.Ends.{Ends};
ghost use Rattle.json_tree.specs.Tree.{tree_at};
ghost use Rattle.event.specs.Types.{Details};
ghost use Rattle.event.specs.Overrides.{read_overrides};
ghost use Rattle.override_text.specs.Inner.Entries.{entries_in};
ghost use Rattle.override_text.specs.Inner.Lists.{Filled, places_of, places_at};
ghost use Rattle.override_text.specs.Inner.Patched.{patch_at};

use crate::entries::date;
use crate::patched::flag;
use json_ends::objects::next_member;
use json_text::bytes::byte;
use property::rows::first;
use property::vocabulary::EXCLUDED;

// Does the patch at a place exclude its occurrence?
fn is_excluded(text: &[u8], ends: &[u32], at: usize) -> bool
    requires { Ends text.now ends.now }
    ensures { (l : ℕ) (own : Details) (id : ℕ) → result ≡ (patch_at l own id text.now at).value.excluded }
{
    if byte(text, at) == 0x7B {
        let mut row = [0usize; 10];
        property::rows::fill(text, ends, at, &mut row);
        let mark = flag(text, at, &row, EXCLUDED, false);
        return mark.value;
    }
    false
}

// The first 256 members of the object at a place.
fn fill(
    text: &[u8],
    ends: &[u32],
    at: usize,
    ids: &mut [u64],
    gone: &mut [bool],
    places: &mut [usize],
) -> usize
    requires { Ends text.now ends.now × ((256 ≤ length ids.old) × ((256 ≤ length gone.old) × (256 ≤ length places.old))) }
    ensures { (l : ℕ) (own : Details) → Filled (entries_in l own text.now (members_of text.now at)).value (places_of (members_of text.now at)) ids.old ids.new gone.old gone.new places.old places.new result }
{
    let mut next = first(text, ends, at);
    let most = text.len().min(256);
    for k in 0..most {
        let Some(m) = next else {
            return k;
        };
        ids[k] = date(text, m.name).value;
        gone[k] = is_excluded(text, ends, m.value);
        places[k] = m.value;
        next = next_member(text, ends, m.after);
    }
    most
}

// The first 256 overrides at a place: more are not accepted. What is after them in the slices keeps its value. The override at k is
// `patch` of the place and the id at k.
pub fn overrides(
    text: &[u8],
    ends: &[u32],
    at: usize,
    ids: &mut [u64],
    gone: &mut [bool],
    places: &mut [usize],
) -> usize
    requires { Ends text.now ends.now × ((256 ≤ length ids.old) × ((256 ≤ length gone.old) × (256 ≤ length places.old))) }
    ensures { (l : ℕ) (own : Details) → Filled (read_overrides own (tree_at (suc (suc l)) text.now at)).value (places_at text.now at) ids.old ids.new gone.old gone.new places.old places.new result }
{
    if byte(text, at) == 0x7B {
        return fill(text, ends, at, ids, gone, places);
    }
    0
}
