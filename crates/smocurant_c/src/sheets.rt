// A sheet read back: what it says as a whole, one record by its number, and a run of records.
ghost use Rattle.sheet.specs.Fetching.{summary_of, fetch_of, run_of, Summarises, Fetches, FetchesRun};

#[unsafe(no_mangle)]
pub extern "C" fn smocurant_read(sheet: &[u8], version: &mut u32, count: &mut u64) -> u32
    ensures { Summarises (summary_of sheet.now) result version.new count.new }
{
    smocurant::sheets::smocurant_read(sheet, version, count)
}

#[unsafe(no_mangle)]
pub extern "C" fn smocurant_record(
    sheet: &[u8],
    number: u64,
    id: &mut i64,
    start: &mut i64,
    end: &mut i64,
    marks: &mut u32,
) -> u32
    ensures { Fetches (fetch_of sheet.now number) result id.new start.new end.new marks.new }
{
    smocurant::sheets::smocurant_record(sheet, number, id, start, end, marks)
}

#[unsafe(no_mangle)]
pub extern "C" fn smocurant_records(
    sheet: &[u8],
    first: u64,
    ids: &mut [i64],
    starts: &mut [i64],
    ends: &mut [i64],
    marks: &mut [u32],
    count: &mut u64,
) -> u32
    ensures { FetchesRun (run_of sheet.now first ids.old starts.old ends.old marks.old) result count.new ids.new starts.new ends.new marks.new }
{
    smocurant::sheets::smocurant_records(sheet, first, ids, starts, ends, marks, count)
}
