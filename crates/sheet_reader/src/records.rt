// The records of a sheet, judged: ids that strictly increase, marks of the version, zeros. One pass finds that nothing is wrong; only where
// something is, each is judged over all records before the next.
ghost use Rattle.std.specs.Prelude.{◌≡◌, ◌+◌, ◌*◌, ◌-◌, ◌<◌, ◌≤◌, length};
ghost use Rattle.sheet.specs.Runs.{every};
ghost use Rattle.sheet.specs.Reading.{rises_at, marked_at, clear_at, fault_in_rows};
ghost use Rattle.sheet_reader.specs.Inner.Good.{sound_at, good_from};
ghost use Rattle.sheet_reader.specs.Inner.Refused.{number_of};

use crate::fields::{id_at, marks_at, zeros_at};
use crate::refusal::Refusal;
use little_endian::reading::get;

// The id of record k is below that of the next one.
fn rises(s: &[u8], k: usize) -> bool
    requires { 28 * k + 56 ≤ length s.now }
    ensures { result ≡ rises_at s.now k }
{
    id_at(s, k) < id_at(s, k + 1)
}

fn marked(s: &[u8], k: usize, most: u32) -> bool
    requires { 28 * k + 28 ≤ length s.now }
    ensures { result ≡ marked_at most s.now k }
{
    marks_at(s, k) <= most
}

fn clear(s: &[u8], k: usize) -> bool
    requires { 28 * k + 28 ≤ length s.now }
    ensures { result ≡ clear_at s.now k }
{
    zeros_at(s, k) == 0
}

fn rising(s: &[u8], n: usize) -> bool
    requires { 28 * n ≤ length s.now }
    ensures { result ≡ every (rises_at s.now) 0 (n - 1) }
{
    (0..n.saturating_sub(1)).all(|k| rises(s, k))
}

fn all_marked(s: &[u8], n: usize, most: u32) -> bool
    requires { 28 * n ≤ length s.now }
    ensures { result ≡ every (marked_at most s.now) 0 n }
{
    (0..n).all(|k| marked(s, k, most))
}

fn all_clear(s: &[u8], n: usize) -> bool
    requires { 28 * n ≤ length s.now }
    ensures { result ≡ every (clear_at s.now) 0 n }
{
    (0..n).all(|k| clear(s, k))
}

// The marks and the zeros of record k, as one number.
fn sound(s: &[u8], k: usize, most: u32) -> bool
    requires { 28 * k + 28 ≤ length s.now }
    ensures { result ≡ sound_at most s.now k }
{
    get::<4>(s, 28 * k + 24) <= most as u64
}

fn all_good(s: &[u8], n: usize, most: u32) -> bool
    requires { 28 * n ≤ length s.now }
    ensures { result ≡ good_from most s.now 0 n }
{
    let last = n.saturating_sub(1);
    (0..last).all(|k| rises(s, k) && sound(s, k, most)) && (n == 0 || sound(s, last, most))
}

// Of n records: the first of the last three refusals that applies.
pub(crate) fn judge_rows(s: &[u8], most: u32, n: usize) -> Result<(), Refusal>
    requires { (28 * n ≤ length s.now) × (most < 256) }
    ensures { number_of result ≡ fault_in_rows s.now most n }
{
    if all_good(s, n, most) {
        return Ok(());
    }
    if !rising(s, n) {
        return Err(Refusal::Order);
    }
    if !all_marked(s, n, most) {
        return Err(Refusal::Marks);
    }
    if !all_clear(s, n) {
        return Err(Refusal::Zeros);
    }
    Ok(())
}
