// The marks of a zone table: each by its place, and whether all are in order.
ghost use Rattle.std.specs.Prelude.{◌≡◌, true, ◌&&◌, ◌∷◌, map, ◌<◌, ◌≤◌, ◌^◌, pos, length, get_or};
ghost use Rattle.zone.specs.Table as Table;
ghost use Rattle.zone.specs.Places.{InRange, mark_at};

// The offset before the transition at i, which is the one after i transitions.
pub(crate) fn before(initial: i64, offsets: &[i64], i: usize) -> i64
    requires { i ≤ length offsets.now }
    ensures { result ≡ get_or (initial ∷ offsets.now) i (pos 0) }
{
    if i == 0 { initial } else { offsets[i - 1] }
}

#[tactic(auto, using(crate::proofs::Machine::max_larger))]
fn larger(a: i64, b: i64) -> i64
    ensures { result ≡ Table.larger a b }
{
    a.max(b)
}

// The mark of the transition at i.
pub(crate) fn at(initial: i64, instants: &[i64], offsets: &[i64], i: usize) -> i64
    requires in_range { InRange initial instants.now offsets.now }
    requires i_in_bounds { i < length instants.now }
    ensures { result ≡ mark_at initial instants.now offsets.now i }
{
    instants[i] + larger(before(initial, offsets, i), offsets[i])
}

// Is each offset within ±86,399, and each mark below the next? One pass for both: an offset is judged before it is added, and the offset
// before a transition and the last mark are carried along. Before the first mark stands -2^41, which is below any.
pub(crate) fn in_order(initial: i64, instants: &[i64], offsets: &[i64]) -> bool
    requires instants_len { length instants.now ≡ length offsets.now }
    requires instants_value { Table.all_within (2 ^ 40) instants.now ≡ true }
    requires initial_value { Table.within 86399 initial ≡ true }
    ensures { result ≡ Table.all_within 86399 offsets.now && Table.increasing (map Table.mark (Table.transitions initial instants.now offsets.now)) }
{
    let mut before = initial;
    let mut last: i64 = -2199023255552;
    for (instant, after) in instants.iter().zip(offsets) {
        if !super::range::within(*after, 86399) {
            return false;
        }
        let next = *instant + larger(before, *after);
        if next <= last {
            return false;
        }
        before = *after;
        last = next;
    }
    true
}
