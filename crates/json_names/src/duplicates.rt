// Equal names in an object of any size: up to 3 names are compared each with each, more are sorted, in room that is
// lent: many by their keys first, and by the names where the keys do not tell them apart. A comparison of two names reads
// at most the bytes of the shorter, so sorting reads each byte of a name at most once a pass, 14 passes at most.
ghost use Rattle.std.specs.Prelude.{◌≡◌, ◌<◌, ◌≤◌, length};
ghost use Rattle.json_ends.specs.Inner.Ends.{Ends};
ghost use Rattle.json_walk.specs.Walk.{members_of};
ghost use Rattle.json_names.specs.Inner.Names.{repeats};
ghost use Rattle.json_names.specs.Inner.Room.{Room};

use crate::names::repeated;
use crate::sort::arrange;
use crate::sorted::{index, judge};

// Have two members equal names? By k entries, which should be their names, with room to sort them.
fn repeated_in(
    text: &[u8],
    ends: &[u32],
    at: usize,
    order: &mut [u64],
    spare: &mut [u64],
    k: usize,
) -> bool
    requires { (at < length text.now) × Room k (length order.old) (length spare.old) × Ends text.now ends.now }
    ensures { result ≡ repeats text.now (members_of text.now at) }
{
    let r = arrange(text, order, spare, k);
    index(order, spare, k);
    judge(text, ends, at, order, spare, k, r)
}

// Have two members equal names? By k entries.
fn repeated_any(
    text: &[u8],
    ends: &[u32],
    at: usize,
    order: &mut [u64],
    spare: &mut [u64],
    k: usize,
) -> bool
    requires { (at < length text.now) × Room k (length order.old) (length spare.old) × Ends text.now ends.now }
    ensures { result ≡ repeats text.now (members_of text.now at) }
{
    if k < 4 {
        return repeated(text, ends, at);
    }
    repeated_in(text, ends, at, order, spare, k)
}

// Have two members equal names? By the entries from one index to another.
pub(crate) fn repeated_from(
    text: &[u8],
    ends: &[u32],
    at: usize,
    base: usize,
    end: usize,
    order: &mut [u64],
    spare: &mut [u64],
) -> bool
    requires { (at < length text.now) × (base ≤ end) × Room end (length order.old) (length spare.old) × Ends text.now ends.now }
    ensures { result ≡ repeats text.now (members_of text.now at) }
{
    repeated_any(text, ends, at, &mut order[base..], spare, end - base)
}
