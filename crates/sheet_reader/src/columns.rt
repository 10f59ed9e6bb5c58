// One number of each of some records, from record k on, in a lent slice: as many as it has room for.
ghost use Rattle.std.specs.Prelude.{◌≡◌, ◌+◌, ◌*◌, ◌≤◌, length};
ghost use Rattle.sheet.specs.Runs.{tabulate};
ghost use Rattle.sheet.specs.Records.{id_at, start_at, end_at, marks_at};
ghost use Rattle.sheet_reader.specs.Inner.Columns.{signed_at};

use crate::fields::marks_at;
use little_endian::reading::get_i64;

// The signed number that stands `place` bytes after the first of each record.
fn numbers(s: &[u8], place: usize, k: usize, out: &mut [i64])
    requires { (place ≤ 16) × (28 * (k + length out.old) ≤ length s.now) }
    ensures { out.new ≡ tabulate (signed_at place s.now) k (length out.old) }
{
    for (i, to) in out.iter_mut().enumerate() {
        *to = get_i64(s, 28 * (k + i) + place);
    }
}

pub fn ids(s: &[u8], k: usize, out: &mut [i64])
    requires { 28 * (k + length out.old) ≤ length s.now }
    ensures { out.new ≡ tabulate (id_at s.now) k (length out.old) }
{
    numbers(s, 0, k, out);
}

pub fn starts(s: &[u8], k: usize, out: &mut [i64])
    requires { 28 * (k + length out.old) ≤ length s.now }
    ensures { out.new ≡ tabulate (start_at s.now) k (length out.old) }
{
    numbers(s, 8, k, out);
}

pub fn ends(s: &[u8], k: usize, out: &mut [i64])
    requires { 28 * (k + length out.old) ≤ length s.now }
    ensures { out.new ≡ tabulate (end_at s.now) k (length out.old) }
{
    numbers(s, 16, k, out);
}

pub fn marks(s: &[u8], k: usize, out: &mut [u32])
    requires { 28 * (k + length out.old) ≤ length s.now }
    ensures { out.new ≡ tabulate (marks_at s.now) k (length out.old) }
{
    for (i, to) in out.iter_mut().enumerate() {
        *to = marks_at(s, k + i);
    }
}
