// The later and the earlier of two days.
ghost use Rattle.track.specs.Inner.Runs.{LaterOf, EarlierOf};

pub(crate) fn later(a: u32, b: u32) -> u32
    ensures { LaterOf a b result }
{
    a.max(b)
}

pub fn earlier(a: u32, b: u32) -> u32
    ensures { EarlierOf a b result }
{
    a.min(b)
}
