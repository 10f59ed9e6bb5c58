// What a sheet says as a whole.
ghost use Rattle.sheet.specs.Fetching.{summary_of, Summarises};

use sheet_reader::trailer::{count, judge};

// The version, and the number of records. A number and lent places, no Result: `smocurant_read` hands them on in C.
pub fn summary(sheet: &[u8], version: &mut u32, records: &mut u64) -> u32
    ensures { Summarises (summary_of sheet.now) result version.new records.new }
{
    let fault = judge(sheet);
    if fault != 0 {
        *version = 0;
        *records = 0;
        return fault;
    }
    *version = sheet_reader::trailer::version(sheet);
    *records = count(sheet) as u64;
    0
}
