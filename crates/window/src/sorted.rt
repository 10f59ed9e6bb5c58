// Overrides whose ids increase, as those of most texts do: the next one, and the one that names a date-time, are found by halving.
ghost use Rattle.std.specs.Prelude.{true, ◌≡◌, ◌≤◌, length};
ghost use Rattle.dates.specs.Inner.Overrides.{is_kept};
ghost use Rattle.window.specs.Inner.Next.{next_of, lower};
ghost use Rattle.window.specs.Inner.Sorted.{Rising, Ordered, Below};

// Is each id less than the one after it?
pub fn rises(ids: &[u64]) -> bool
    ensures { Ordered ids.now result × (Rising ids.now → result ≡ true) }
{
    ids.is_sorted_by(|a, b| a < b)
}

// How many ids are less than x.
pub fn below(ids: &[u64], x: u64) -> usize
    requires { Rising ids.now }
    ensures { Below ids.now x result }
{
    ids.partition_point(|id| *id < x)
}

// The first date-time from `at` on, and before `to`, that an override names and none excludes; `to` where there is none.
pub(crate) fn next_sorted(ids: &[u64], gone: &[bool], at: u64, to: u64) -> u64
    requires { Rising ids.now × ((length ids.now ≡ length gone.now) × (at ≤ to)) }
    ensures { result ≡ next_of (is_kept ids.now gone.now) at to }
{
    for i in below(ids, at)..ids.len() {
        if !gone[i] {
            return to.min(ids[i]);
        }
    }
    to
}
