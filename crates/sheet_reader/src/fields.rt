// The numbers of record k. Each is one call of `little_endian`'s reader at its place, and `Records` defines each by its name.
ghost use Rattle.std.specs.Prelude.{◌≡◌, ◌+◌, ◌*◌, ◌≤◌, length};
ghost use Rattle.sheet.specs.Records.{id_at, start_at, end_at, marks_at, zeros_at};

use little_endian::reading::{get, get_i64};

pub fn id_at(s: &[u8], k: usize) -> i64
    requires { 28 * k + 28 ≤ length s.now }
    ensures { result ≡ id_at s.now k }
{
    get_i64(s, 28 * k)
}

pub fn start_at(s: &[u8], k: usize) -> i64
    requires { 28 * k + 28 ≤ length s.now }
    ensures { result ≡ start_at s.now k }
{
    get_i64(s, 28 * k + 8)
}

pub fn end_at(s: &[u8], k: usize) -> i64
    requires { 28 * k + 28 ≤ length s.now }
    ensures { result ≡ end_at s.now k }
{
    get_i64(s, 28 * k + 16)
}

pub fn marks_at(s: &[u8], k: usize) -> u32
    requires { 28 * k + 28 ≤ length s.now }
    ensures { result ≡ marks_at s.now k }
{
    get::<1>(s, 28 * k + 24) as u32
}

pub(crate) fn zeros_at(s: &[u8], k: usize) -> u64
    requires { 28 * k + 28 ≤ length s.now }
    ensures { result ≡ zeros_at s.now k }
{
    get::<3>(s, 28 * k + 25)
}
