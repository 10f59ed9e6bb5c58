// A zone table lent as a slice of entries, and the two runs of numbers that the library works over (01, "Zone table and UTC").
#![tactic(auto)]

ghost use Rattle.std.specs.Prelude.{◌≡◌, ◌≤◌, length};
ghost use Rattle.entries.specs.Inner.Gathers.{lesser, Gathers};

// "a run of entries, each an instant and an offset from then on"
#[repr(C)]
#[derive(Clone, Copy)]
pub struct Transition {
    pub instant: i64,
    pub offset: i64,
}

// One more than a valid table may have is enough to see that a table is too long.
#[tactic(auto, unfolding(crate::specs::Inner::Gathers::lesser))]
fn limit(n: usize) -> usize
    ensures { result ≡ lesser n 1025 }
{
    n.min(1025)
}

// The entries' numbers go to the first places of both runs; the result says to how many. The runs are the caller's, so that no table is copied for an entry.
pub fn gather(entries: &[Transition], instants: &mut [i64], offsets: &mut [i64]) -> usize
    requires { (1025 ≤ length instants.old) × (1025 ≤ length offsets.old) }
    ensures { Gathers entries.now instants.old offsets.old result instants.new offsets.new }
{
    let n = limit(entries.len());
    for (i, entry) in entries[..n].iter().enumerate() {
        instants[i] = entry.instant;
        offsets[i] = entry.offset;
    }
    n
}
