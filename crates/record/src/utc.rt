// When an occurrence starts and ends in UTC. The days of its length are added to the local start, the seconds to the time in UTC.
ghost use Rattle.std.specs.Prelude.{true, ◌≡◌, ◌+◌, ◌*◌, ◌<◌, ◌≤◌, ◌^◌, pos, nat_abs, ◌+ℤ◌, ◌-ℤ◌, length};
ghost use Rattle.zone.specs.Table.{valid_table};
ghost use Rattle.record.specs.Inner.Utc.{offset_by, end_offset, end_by, Brief, Started, Ending};

use crate::Times;
use crate::window::since_1970;

// Where in the zone table the offset of the last start was found, and that of the last end: each is near the next one of its kind.
pub(crate) const START: usize = 0;

const END: usize = 1;

// The offset at a local time, looked for near the hint at a place of the two. Any hint is right, so which one is left is not promised.
#[tactic(auto, unfolding(crate::specs::Inner::Utc::offset_by))]
pub(crate) fn offset_of(
    floating: bool,
    initial: i64,
    instants: &[i64],
    offsets: &[i64],
    local: i64,
    hints: &mut [usize],
    at: usize,
) -> i64
    requires { (valid_table initial instants.now offsets.now ≡ true) × (at < length hints.old) }
    ensures { result ≡ offset_by floating initial instants.now offsets.now local }
{
    if floating {
        return 0;
    }
    zone::offset(initial, instants, offsets, local, &mut hints[at])
}

// UTC is local less the offset.
pub(crate) fn to_utc(local: i64, offset: i64) -> i64
    requires { (nat_abs local ≤ 2 ^ 61) × (nat_abs offset ≤ 86399) }
    ensures { result ≡ local -ℤ offset }
{
    local - offset
}

fn later(time: i64, seconds: u64) -> i64
    requires { (nat_abs time ≤ 2 ^ 62) × (seconds ≤ 2 ^ 40) }
    ensures { result ≡ time +ℤ pos seconds }
{
    time + seconds as i64
}

// The local start with the days added.
fn local_end(times: Times) -> u64
    requires { Brief times }
    ensures { result ≡ times.start + 86400 * times.days }
{
    times.start + 86400 * times.days
}

// The offset at the local end. Without days that is the start, and its offset is known.
#[tactic(auto, unfolding(crate::specs::Inner::Utc::start_offset, crate::specs::Inner::Utc::end_offset, call_definitions::specs::Utc::days_later))]
fn end_offset(
    times: Times,
    before: i64,
    initial: i64,
    instants: &[i64],
    offsets: &[i64],
    local: i64,
    hints: &mut [usize],
) -> i64
    requires { Ending times before initial instants.now offsets.now local × (length hints.old ≡ 2) }
    ensures { result ≡ end_offset initial instants.now offsets.now times }
{
    if times.days == 0 {
        return before;
    }
    offset_of(
        times.floating,
        initial,
        instants,
        offsets,
        local,
        hints,
        END,
    )
}

// The end, given the offset at the start.
#[tactic(auto, unfolding(crate::specs::Inner::Utc::end_by, crate::specs::Inner::Utc::end_offset, call_definitions::specs::Utc::days_later))]
pub(crate) fn end_of(
    times: Times,
    before: i64,
    initial: i64,
    instants: &[i64],
    offsets: &[i64],
    hints: &mut [usize],
) -> i64
    requires { Started times before initial instants.now offsets.now × (length hints.old ≡ 2) }
    ensures { result ≡ end_by initial instants.now offsets.now times }
{
    let local = since_1970(local_end(times));
    let offset = end_offset(times, before, initial, instants, offsets, local, hints);
    let utc = to_utc(local, offset);
    later(utc, times.seconds)
}
