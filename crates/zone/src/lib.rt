// The zone table of a call: is it valid, which offset holds at a local time, and what that time is in UTC. The table is an initial
// offset and two slices, the entries' instants and the offsets from then on.
#![tactic(auto)]

mod hint;
mod mark;
mod range;
pub mod search;

ghost use Rattle.std.specs.Prelude.{◌≡◌, true, ◌^◌, ◌≤◌, nat_abs};
ghost use Rattle.zone.specs.Table.{valid_table};
ghost use Rattle.zone.specs.Lookup.{offset_at, utc_at};

// Any numbers may arrive: each is judged before it is added to another.
pub fn valid(initial: i64, instants: &[i64], offsets: &[i64]) -> bool
    ensures { result ≡ valid_table initial instants.now offsets.now }
{
    instants.len() <= 1024
        && instants.len() == offsets.len()
        && range::increasing(instants)
        && range::ends_within(instants, 1099511627776)
        && range::within(initial, 86399)
        && mark::in_order(initial, instants, offsets)
}

// The offset of a local time. The hint is where the last one was found, and is left where this one is found: if the local time is still
// there, two marks say so, and no search is made. Any hint is right, so which one is left is not promised.
pub fn offset(initial: i64, instants: &[i64], offsets: &[i64], local: i64, hint: &mut usize) -> i64
    requires { valid_table initial instants.now offsets.now ≡ true }
    ensures { result ≡ offset_at initial instants.now offsets.now local }
{
    let guess = *hint;
    if hint::still(initial, instants, offsets, local, guess) {
        return mark::before(initial, offsets, guess);
    }
    let place = search::search(initial, instants, offsets, local).place;
    *hint = place;
    mark::before(initial, offsets, place)
}

pub fn utc(initial: i64, instants: &[i64], offsets: &[i64], local: i64, hint: &mut usize) -> i64
    requires { (valid_table initial instants.now offsets.now ≡ true) × (nat_abs local ≤ 2 ^ 62) }
    ensures { result ≡ utc_at initial instants.now offsets.now local }
{
    local - offset(initial, instants, offsets, local, hint)
}
