// The weeks of an upload log, reported, shut or missing, from the sheet of a closure calendar.
ghost use Rattle.weeks.specs.Replay.{replay_of, Replays};

#[unsafe(no_mangle)]
pub extern "C" fn smocurant_weeks(
    log: &[i64],
    sheet: &[u8],
    range_start: i64,
    range_end: i64,
    places: &mut [i64],
    reported: &mut u64,
    shut: &mut u64,
    missing: &mut u64,
) -> u32
    ensures { Replays (replay_of log.now sheet.now range_start range_end places.old) result reported.new shut.new missing.new places.new }
{
    smocurant::upload_weeks::smocurant_weeks(
        log,
        sheet,
        range_start,
        range_end,
        places,
        reported,
        shut,
        missing,
    )
}
