// The whole call of request 1.
ghost use Rattle.std.specs.Prelude.{◌*◌, ◌≤◌, length};
ghost use Rattle.weeks.specs.Replay.{replay_of, Replays};
ghost use Rattle.replay.specs.Inner.Sorted.{Sorted};

use crate::instants::up;
use crate::places::fill;
use crate::refusals::{refusal, weeks_in};
use crate::tallies::{Class, tally};
use sheet_reader::trailer::count;

// All places that are lent, and their tallies.
fn sort(
    log: &[i64],
    sheet: &[u8],
    n: usize,
    b: u64,
    p: &mut [i64],
    reported: &mut u64,
    shut: &mut u64,
    missing: &mut u64,
)
    requires { 28 * n ≤ length sheet.now }
    ensures { Sorted log.now sheet.now n b (length p.old) p.new reported.new shut.new missing.new }
{
    fill(log, sheet, n, b, p);
    *reported = tally(p, Class::Reported);
    *shut = tally(p, Class::Shut);
    *missing = tally(p, Class::Missing);
}

// Each week's place gets its uploads, -1 where it is shut, -2 where it is missing. After a refusal no place has changed, and the tallies are 0.
// A number and lent places, no Result: `smocurant_weeks` hands them on in C.
pub fn weeks(
    log: &[i64],
    sheet: &[u8],
    range_start: i64,
    range_end: i64,
    places: &mut [i64],
    reported: &mut u64,
    shut: &mut u64,
    missing: &mut u64,
) -> u32
    ensures { Replays (replay_of log.now sheet.now range_start range_end places.old) result reported.new shut.new missing.new places.new }
{
    if let Some(reason) = refusal(log, sheet, range_start, range_end, places.len() as u64) {
        *reported = 0;
        *shut = 0;
        *missing = 0;
        return u32::from(reason);
    }
    let n = weeks_in(range_start, range_end) as usize;
    let records = count(sheet);
    let b = up(range_start);
    sort(
        log,
        sheet,
        records,
        b,
        &mut places[..n],
        reported,
        shut,
        missing,
    );
    0
}
