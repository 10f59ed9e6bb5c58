// The refusals 34 to 41.
ghost use Rattle.std.specs.Prelude.{◌≡◌};
ghost use Rattle.sheet.specs.Fetching.{fetch_fault};

use sheet_reader::trailer::{count, judge};

// 0, or the first refusal that applies to a sheet and a record's number.
// A number and no Result: `smocurant_record` answers it in C, and docs/ARCHITECTURE.md names this function as `sheet fetch_fault`.
pub fn fetch_fault(sheet: &[u8], number: u64) -> u32
    ensures { result ≡ fetch_fault sheet.now number }
{
    match judge(sheet) {
        0 if count(sheet) as u64 <= number => 41,
        fault => fault,
    }
}
