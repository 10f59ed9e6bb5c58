// The rules of an event, settled one after the other.
ghost use Rattle.std.specs.Prelude.{◌≡◌, ◌+◌, ◌*◌, ◌<◌, ◌≤◌, length};
ghost use Rattle.rule.specs.Inner.Read.{Sized};
ghost use Rattle.track.specs.Inner.Settle.{cleared, Settling, SettledBy};
ghost use Rattle.dates.specs.Inner.Load.{put, Loading, Added};

use super::Tracks;
use matcher::layout::ROW;
use rule::{Frequency, Rule};
use track::Track;

// No rules yet. What the eight places hold is left open: none of them is counted.
pub fn no_tracks() -> Tracks
    ensures { (result.count ≡ 0) × (length result.list ≡ 8) }
{
    let terms = matcher::Terms {
        frequency: Frequency::Daily,
        interval: 1,
        first: 0,
        inyear: false,
        placed: false,
        period: 0,
    };
    let track = Track { terms, last: 0 };
    Tracks {
        list: [track; 8],
        count: 0,
    }
}

// A rule settled on a row that may hold anything before.
fn settle_row(excluded: bool, rule: Rule, start: u64, limit: u32, row: &mut [bool]) -> Track
    requires { Sized rule × Settling (length row.old) start limit }
    ensures { SettledBy excluded rule start limit (cleared (length row.old)) row.new result }
{
    row.fill(false);
    track::settle::settle(excluded, rule, start, limit, row)
}

fn put_track(mut tracks: Tracks, track: Track) -> Tracks
    requires { (tracks.count < length tracks.list) × (tracks.count < 8) }
    ensures { result ≡ put tracks track }
{
    tracks.list[tracks.count] = track;
    tracks.count += 1;
    tracks
}

// One more rule: its row is the next of the flags.
pub fn load(
    excluded: bool,
    rule: Rule,
    start: u64,
    limit: u32,
    tracks: Tracks,
    flags: &mut [bool],
) -> Tracks
    requires { Sized rule × Loading tracks.count (length tracks.list) (length flags.old) start limit }
    ensures { Added excluded rule start limit tracks flags.old flags.new result }
{
    let at = ROW * tracks.count;
    let track = settle_row(excluded, rule, start, limit, &mut flags[at..at + ROW]);
    put_track(tracks, track)
}
