// Marking a run of days: hit i stands for day first + i at the start's time of day.
ghost use Rattle.std.specs.Prelude.{◌≡◌, ◌≤◌, length};
ghost use Rattle.track.specs.Inner.Runs.{marked};
ghost use Rattle.dates.specs.Inner.Tracked.{mark_each, tracks_of, Tracked, Run};
ghost use Rattle.dates.specs.Inner.Overrides.{counts, is_date, names_day};

use super::Tracks;
use matcher::layout::ROW;

// The days of each rule of a list get the value; the event begins on the day `begin`.
pub(crate) fn mark_tracks(
    tracks: Tracks,
    flags: &[bool],
    hits: &mut [bool],
    first: u32,
    begin: u32,
    value: bool,
)
    requires { Tracked tracks (length flags.now) × Run first (length hits.old) }
    ensures { hits.new ≡ mark_each (tracks_of tracks) flags.now value first begin hits.old }
{
    for (i, track) in tracks.list[..tracks.count].iter().enumerate() {
        let at = ROW * i;
        let row = &flags[at..at + ROW];
        track::runs::mark_run(*track, row, hits, first, begin, value);
    }
}

// The hit of the date-time x, if x counts and the run has it: it gets the value.
pub(crate) fn mark_date(
    hits: &mut [bool],
    first: u32,
    start: u64,
    x: u64,
    counted: bool,
    value: bool,
)
    ensures { hits.new ≡ marked (is_date counted start x) value first hits.old }
{
    let first = u64::from(first);
    if !counted || x % 86400 != start % 86400 || x / 86400 < first {
        return;
    }
    let i = (x / 86400 - first) as usize;
    if i < hits.len() {
        hits[i] = value;
    }
}

pub fn count_it(only: bool, gone: bool) -> bool
    ensures { result ≡ counts only gone }
{
    !only || gone
}

// The hits that overrides name, all of them or only those that are excluded, get the value.
pub(crate) fn mark_ids(
    ids: &[u64],
    gone: &[bool],
    only: bool,
    hits: &mut [bool],
    first: u32,
    start: u64,
    value: bool,
)
    requires { length ids.now ≡ length gone.now }
    ensures { hits.new ≡ marked (names_day only ids.now gone.now start) value first hits.old }
{
    for (id, gone) in ids.iter().zip(gone) {
        mark_date(hits, first, start, *id, count_it(only, *gone), value);
    }
}
