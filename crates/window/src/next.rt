// The next date-time of the set within a run of days that is filled.
ghost use Rattle.std.specs.Prelude.{if◌then◌else◌, false, ◌≡◌, ◌+◌, ◌-◌, ◌≤◌, length};
ghost use Rattle.dates.specs.Inner.Overrides.{is_named, is_kept};
ghost use Rattle.window.specs.Inner.Sorted.{Ordered};
ghost use Rattle.window.specs.Inner.Next.{first_from, none_in, next_of, at_hit, TrueAt, is_hit, day_from, nearer, least_of, lower, renewed, Stretch};

use super::sorted::next_sorted;

// Whether an override names x: any, or one that is excluded.
fn is_named(only: bool, ids: &[u64], gone: &[bool], x: u64) -> bool
    requires { length ids.now ≡ length gone.now }
    ensures { result ≡ is_named only ids.now gone.now x }
{
    ids.iter().zip(gone).any(|(id, gone)| dates::marks::count_it(only, *gone) && *id == x)
}

fn nearer_of(at: u64, best: u64, id: u64, gone: bool) -> u64
    ensures { result ≡ nearer at best id gone }
{
    if at <= id && id < best && !gone {
        id
    } else {
        best
    }
}

// The least date-time from `at` on, and before `to`, of an override that is not excluded; `to` where there is none.
fn nearest(ids: &[u64], gone: &[bool], at: u64, to: u64) -> u64
    requires { length ids.now ≡ length gone.now }
    ensures { result ≡ least_of at to ids.now gone.now }
{
    let mut best = to;
    for (id, gone) in ids.iter().zip(gone) {
        best = nearer_of(at, best, *id, *gone);
    }
    best
}

// Among overrides in any order. Whether another override excludes a date-time is asked only of the nearest, as asking it goes through all of
// them.
fn next_unsorted(ids: &[u64], gone: &[bool], at: u64, to: u64) -> u64
    requires { (length ids.now ≡ length gone.now) × (at ≤ to) }
    ensures { result ≡ next_of (is_kept ids.now gone.now) at to }
{
    let mut from = at;
    while from < to {
        let x = nearest(ids, gone, from, to);
        if to <= x {
            return to;
        }
        if !is_named(true, ids, gone, x) {
            return x;
        }
        from = x + 1;
    }
    to
}

// The first date-time from `at` on, and before `to`, that an override names and none excludes; `to` where there is none. Where the ids
// increase, as those of most texts do, it is found by halving.
pub(crate) fn next_kept(ids: &[u64], gone: &[bool], sorted: bool, at: u64, to: u64) -> u64
    requires { Ordered ids.now sorted × ((length ids.now ≡ length gone.now) × (at ≤ to)) }
    ensures { result ≡ next_of (is_kept ids.now gone.now) at to }
{
    if sorted {
        next_sorted(ids, gone, at, to)
    } else {
        next_unsorted(ids, gone, at, to)
    }
}

// What was next among the overrides, looked for again only where it was passed.
pub(crate) fn renew(ids: &[u64], gone: &[bool], sorted: bool, pending: u64, at: u64, to: u64) -> u64
    requires { Ordered ids.now sorted × ((length ids.now ≡ length gone.now) × (at ≤ to)) }
    ensures { result ≡ renewed ids.now gone.now pending at to }
{
    if pending < at {
        next_kept(ids, gone, sorted, at, to)
    } else {
        pending
    }
}

// Is none of some days hit? It looks at all of them, so that the machine looks at many at once.
fn none_in(hits: &[bool], low: usize, high: usize) -> bool
    requires { (low ≤ high) × (high ≤ length hits.now) }
    ensures { result ≡ none_in (at_hit hits.now) low (high - low) }
{
    let mut none = true;
    for hit in &hits[low..high] {
        none &= !*hit;
    }
    none
}

// As many blocks of 64 days as have no hit: a yearly rule has a hit in each sixth.
fn past_blocks(hits: &[bool], from: usize) -> usize
    requires { from ≤ length hits.now }
    ensures { TrueAt hits.now from result }
{
    let mut i = from;
    while 64 <= hits.len() - i {
        if none_in(hits, i, i + 64) {
            i += 64;
        } else {
            return i;
        }
    }
    i
}

// Sixteen days without a hit are passed at once, and after them more.
fn past_quiet(hits: &[bool], i: usize) -> usize
    requires { i ≤ length hits.now }
    ensures { TrueAt hits.now i result }
{
    if 16 <= hits.len() - i && none_in(hits, i, i + 16) {
        past_blocks(hits, i + 16)
    } else {
        i
    }
}

fn next_true(hits: &[bool], from: usize) -> usize
    requires { from ≤ length hits.now }
    ensures { result ≡ first_from (at_hit hits.now) (length hits.now - from) from }
{
    let mut i = from;
    while i < hits.len() {
        if hits[i] {
            return i;
        }
        i = past_quiet(hits, i + 1);
    }
    i
}

// The first day that has the start's time of day not before a second.
pub fn day_from(start: u64, at: u64) -> u64
    ensures { result ≡ day_from start at }
{
    if at % 86400 <= start % 86400 {
        at / 86400
    } else {
        at / 86400 + 1
    }
}

// The first date-time from `at` on, and before `to`, whose hit is set; `to` where there is none.
fn next_hit(hits: &[bool], first: u32, start: u64, at: u64, to: u64) -> u64
    requires { Stretch first (length hits.now) at to }
    ensures { result ≡ next_of (is_hit hits.now first start) at to }
{
    let from = day_from(start, at) - u64::from(first);
    let i = next_true(hits, from as usize);
    to.min(86400 * (u64::from(first) + i as u64) + start % 86400)
}

// The first date-time of the set from `at` on, and before `to`; `pending` is what comes next among the overrides.
pub(crate) fn next_in(hits: &[bool], first: u32, start: u64, pending: u64, at: u64, to: u64) -> u64
    requires { Stretch first (length hits.now) at to }
    ensures { result ≡ lower (next_of (is_hit hits.now first start) at to) pending }
{
    next_hit(hits, first, start, at, to).min(pending)
}
