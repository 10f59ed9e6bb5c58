// The search for the offset of a local time, by halving: a step reads one mark and leaves at most half the run, so that 11 steps are
// enough for 1,024 entries (02, request 5).
ghost use Rattle.std.specs.Prelude.{◌≡◌, ◌<◌, ◌≤◌, length};
ghost use Rattle.zone.specs.Places.{InRange, mark_at};
ghost use Rattle.zone.specs.Search.{Halved, search_by};

// The run of marks in question: from `low` up to `high`, which is not in it.
#[derive(Clone, Copy)]
pub struct Span {
    pub low: usize,
    pub high: usize,
}

// The first place whose mark is beyond the local time, and the steps that it took. The steps are no flag beside a value: the contract of
// `search`, of which `Halving` speaks, is an equation with `search_by`, which counts them.
#[derive(Clone, Copy)]
pub struct Found {
    pub place: usize,
    pub steps: u32,
}

// The mark in the middle says on which side of it the search goes on. The ends are two numbers and no `Span`: docs/TRACE.md names this
// function, and its contract takes them so.
pub(crate) fn step(
    initial: i64,
    instants: &[i64],
    offsets: &[i64],
    local: i64,
    low: usize,
    high: usize,
) -> Span
    requires in_range { InRange initial instants.now offsets.now }
    requires low_lt_high { (low < high) × (high ≤ length instants.now) }
    ensures { Halved (mark_at initial instants.now offsets.now) local low high result }
{
    let middle = low + (high - low) / 2;
    let mark = super::mark::at(initial, instants, offsets, middle);
    if local < mark {
        return Span { low, high: middle };
    }
    Span {
        low: middle + 1,
        high,
    }
}

// Marks increase, so what stands before `low` is at or before the local time, and what stands from `high` on is beyond it. A loop and no
// `partition_point`, which does not say what it reads: `Halved` says it of each step, and `search_by` how many there are.
pub(crate) fn search(initial: i64, instants: &[i64], offsets: &[i64], local: i64) -> Found
    requires in_range { InRange initial instants.now offsets.now }
    requires instants_len_bound { length instants.now ≤ 1024 }
    ensures { result ≡ search_by 11 (mark_at initial instants.now offsets.now) local 0 (length instants.now) }
{
    let mut low = 0;
    let mut high = instants.len();
    let mut steps: u32 = 0;
    while low < high {
        let s = step(initial, instants, offsets, local, low, high);
        low = s.low;
        high = s.high;
        steps += 1;
    }
    Found { place: low, steps }
}
