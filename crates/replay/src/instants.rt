// Instants as natural numbers, 2^63 more than the signed ones.
ghost use Rattle.std.specs.Prelude.{◌≡◌, ◌<◌, ◌^◌};
ghost use Rattle.weeks.specs.Inner.Marks.{first_of, up as marks_up};

// t + 2^63.
pub(crate) fn up(t: i64) -> u64
    ensures { result ≡ marks_up t }
{
    t.abs_diff(i64::MIN)
}

// The week, counted from b, in which x lies; 0 before b.
pub(crate) fn first_of(b: u64, x: u64) -> u64
    ensures { (result ≡ first_of b x) × (result < 2 ^ 63) }
{
    x.saturating_sub(b) / 604800
}
