// Equal names by sorting. How the entries came to be sorted is not relied on: what they show is checked, and where
// they show nothing each name is compared with each. So a fault in the sorting costs time and no answer.
ghost use Rattle.std.specs.Prelude.{◌≡◌, ◌-◌, ◌<◌, true, length, slice_index};
ghost use Rattle.json_ends.specs.Inner.Ends.{Ends};
ghost use Rattle.json_walk.specs.Walk.{members_of};
ghost use Rattle.json_names.specs.Inner.Names.{repeats};
ghost use Rattle.json_names.specs.Inner.Order.{Covered, Rising};

use crate::names::{among, repeated};
use crate::order::{entry_before, name_of, stop_of};
use crate::radix::put;
use json_ends::objects::{first_member, next_member};

// The entry at an index; 0 past the end.
pub(crate) fn entry(order: &[u64], i: usize) -> u64
    ensures { result ≡ slice_index order.now i }
{
    order.get(i).copied().unwrap_or(0)
}

// How many of the first entries come before the next one.
pub(crate) fn rising(text: &[u8], order: &[u64], k: usize) -> usize
    ensures { Rising text.now order.now result }
{
    for i in 0..k {
        if k - i < 2 || !entry_before(text, entry(order, i), entry(order, i + 1)) {
            return i;
        }
    }
    k
}

// Writes, for each of the first k entries, its index where `locate` looks for it. A member takes five bytes at least, so
// no two names fall together.
pub(crate) fn index(order: &[u64], places: &mut [u64], k: usize)
    ensures { length places.new ≡ length places.old }
{
    for i in 0..k {
        put(places, name_of(entry(order, i)) / 5, i as u64);
    }
}

// Which entry is that of the name at a place, if `index` wrote it.
fn locate(places: &[u64], name: usize) -> usize {
    entry(places, name / 5) as usize
}

// Are all names of the object at a place among the first k entries?
fn covered(text: &[u8], ends: &[u32], at: usize, order: &[u64], places: &[u64], k: usize) -> bool
    requires { (at < length text.now) × Ends text.now ends.now }
    ensures { result ≡ true → Covered order.now k at (members_of text.now at) }
{
    let mut step = first_member(text, ends, at);
    let mut last = at;
    for _ in 0..text.len() {
        let Some(m) = step else {
            return true;
        };
        let t = locate(places, m.name);
        let e = entry(order, t);
        if m.name <= last || k <= t || name_of(e) != m.name || stop_of(e) != m.stop {
            return false;
        }
        last = m.name;
        step = next_member(text, ends, m.after);
    }
    true
}

// Does the name that stands at a place come again, in the object at a place?
fn again(text: &[u8], ends: &[u32], at: usize, name: usize) -> bool
    requires { (at < length text.now) × Ends text.now ends.now }
    ensures { result ≡ true → repeats text.now (members_of text.now at) ≡ true }
{
    let mut step = first_member(text, ends, at);
    for i in 0..text.len() {
        let Some(m) = step else {
            return false;
        };
        if m.name == name {
            return among(text, ends, m.name, m.stop, m.after, text.len() - (i + 1));
        }
        step = next_member(text, ends, m.after);
    }
    false
}

// Have two members equal names? By k entries that should be all names, sorted, of which r come before the next one.
pub(crate) fn judge(
    text: &[u8],
    ends: &[u32],
    at: usize,
    order: &[u64],
    places: &[u64],
    k: usize,
    r: usize,
) -> bool
    requires { (at < length text.now) × Rising text.now order.now r × Ends text.now ends.now }
    ensures { result ≡ repeats text.now (members_of text.now at) }
{
    if 1 < k.saturating_sub(r) {
        return again(text, ends, at, name_of(entry(order, r)))
            || again(text, ends, at, name_of(entry(order, r + 1)))
            || repeated(text, ends, at);
    }
    !covered(text, ends, at, order, places, k) && repeated(text, ends, at)
}
