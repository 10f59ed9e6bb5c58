// One record by its number. The whole sheet is judged each time.
ghost use Rattle.sheet.specs.Fetching.{fetch_of, Fetches};

use crate::refusals::fetch_fault;
use sheet_reader::fields::{end_at, id_at, marks_at, start_at};

// A number and lent places, no Result: `smocurant_record` hands them on in C.
pub fn fetch(
    sheet: &[u8],
    number: u64,
    id: &mut i64,
    start: &mut i64,
    end: &mut i64,
    marks: &mut u32,
) -> u32
    ensures { Fetches (fetch_of sheet.now number) result id.new start.new end.new marks.new }
{
    let fault = fetch_fault(sheet, number);
    if fault != 0 {
        *id = 0;
        *start = 0;
        *end = 0;
        *marks = 0;
        return fault;
    }
    let k = number as usize;
    *id = id_at(sheet, k);
    *start = start_at(sheet, k);
    *end = end_at(sheet, k);
    *marks = marks_at(sheet, k);
    0
}
