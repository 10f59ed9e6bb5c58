// The look at the hint: is the local time still where the last one was found? Two marks at most.
ghost use Rattle.std.specs.Prelude.{◌≡◌, ◌≤◌, length};
ghost use Rattle.zone.specs.Places.{InRange, mark_at};
ghost use Rattle.zone.specs.Inner.Hint.{begun_at, ahead_at, still_at};

fn begun(initial: i64, instants: &[i64], offsets: &[i64], local: i64, i: usize) -> bool
    requires in_range { InRange initial instants.now offsets.now }
    requires i_in_bounds { i ≤ length instants.now }
    ensures { result ≡ begun_at (mark_at initial instants.now offsets.now) local i }
{
    i == 0 || super::mark::at(initial, instants, offsets, i - 1) <= local
}

fn ahead(initial: i64, instants: &[i64], offsets: &[i64], local: i64, i: usize) -> bool
    requires in_range { InRange initial instants.now offsets.now }
    requires i_in_bounds { i ≤ length instants.now }
    ensures { result ≡ ahead_at (mark_at initial instants.now offsets.now) (length instants.now) local i }
{
    i == instants.len() || local < super::mark::at(initial, instants, offsets, i)
}

#[tactic(auto, using(crate::proofs::Machine::still_by_tests))]
pub(crate) fn still(initial: i64, instants: &[i64], offsets: &[i64], local: i64, i: usize) -> bool
    requires { InRange initial instants.now offsets.now }
    ensures { result ≡ still_at (mark_at initial instants.now offsets.now) (length instants.now) local i }
{
    i <= instants.len()
        && begun(initial, instants, offsets, local, i)
        && ahead(initial, instants, offsets, local, i)
}
