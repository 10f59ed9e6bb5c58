// A run of records in four lent slices: the sheet is judged once, and then gone through once, in blocks of records. In a block one number after
// the other is taken from all of its records.
ghost use Rattle.std.specs.Prelude.{length};
ghost use Rattle.sheet.specs.Fetching.{run_of, FetchesRun};
ghost use Rattle.fetch.specs.Inner.Filling.{Room, Filled, Block, BlockFilled};

use crate::refusals::fetch_fault;
use sheet_reader::columns;
use sheet_reader::trailer::count;

// The records of a block, and their numbers, lie in the nearest cache.
const BLOCK: usize = 256;

// The numbers of the records from record k on, at the elements from i to e.
fn fill_block(
    sheet: &[u8],
    k: usize,
    i: usize,
    e: usize,
    ids: &mut [i64],
    starts: &mut [i64],
    ends: &mut [i64],
    marks: &mut [u32],
)
    requires { Block (length sheet.now) k i e (length ids.old) (length starts.old) (length ends.old) (length marks.old) }
    ensures { BlockFilled sheet.now k i e ids.old starts.old ends.old marks.old ids.new starts.new ends.new marks.new }
{
    columns::ids(sheet, k, &mut ids[i..e]);
    columns::starts(sheet, k, &mut starts[i..e]);
    columns::ends(sheet, k, &mut ends[i..e]);
    columns::marks(sheet, k, &mut marks[i..e]);
}

// The numbers of n records from record k on.
fn fill(
    sheet: &[u8],
    k: usize,
    n: usize,
    ids: &mut [i64],
    starts: &mut [i64],
    ends: &mut [i64],
    marks: &mut [u32],
)
    requires { Room (length sheet.now) k n (length ids.old) (length starts.old) (length ends.old) (length marks.old) }
    ensures { Filled sheet.now k n ids.old starts.old ends.old marks.old ids.new starts.new ends.new marks.new }
{
    for block in 0..n.div_ceil(BLOCK) {
        let i = block * BLOCK;
        let e = i + BLOCK.min(n - i);
        fill_block(sheet, k + i, i, e, ids, starts, ends, marks);
    }
}

// The records from number `first` on, as many as each slice has room for, and how many they are.
// A number and four lent slices, no Result of rows: `smocurant_records` hands them on in C.
pub fn fetch_run(
    sheet: &[u8],
    first: u64,
    ids: &mut [i64],
    starts: &mut [i64],
    ends: &mut [i64],
    marks: &mut [u32],
    handed: &mut u64,
) -> u32
    ensures { FetchesRun (run_of sheet.now first ids.old starts.old ends.old marks.old) result handed.new ids.new starts.new ends.new marks.new }
{
    let fault = fetch_fault(sheet, first);
    if fault != 0 {
        *handed = 0;
        return fault;
    }
    let k = first as usize;
    let left = count(sheet) - k;
    let n = ids
        .len()
        .min(starts.len())
        .min(ends.len())
        .min(marks.len())
        .min(left);
    fill(sheet, k, n, ids, starts, ends, marks);
    *handed = n as u64;
    0
}
