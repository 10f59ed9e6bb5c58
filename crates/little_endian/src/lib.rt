// Writes a number's bytes, the lowest first, into a lent buffer. The contracts give the whole buffer: the bytes stand at `at`, and every
// other byte keeps its value. `reading` has the way back.
#![tactic(auto)]

ghost use Rattle.std.specs.Prelude.{◌≡◌, ◌+◌, ◌≤◌, length};
ghost use Rattle.std.proofs.lemmas.List.Edits.{sets};
ghost use Rattle.little_endian.specs.Bytes.{bytes_of};
ghost use Rattle.little_endian.specs.Bytes.{twos as bytes_twos};

pub mod reading;

pub fn put_u16(buf: &mut [u8], at: usize, v: u16)
    requires { at + 2 ≤ length buf.old }
    ensures { buf.new ≡ sets buf.old at (bytes_of 2 v) }
{
    put(buf, at, u16::to_le_bytes(v));
}

pub fn put_u32(buf: &mut [u8], at: usize, v: u32)
    requires { at + 4 ≤ length buf.old }
    ensures { buf.new ≡ sets buf.old at (bytes_of 4 v) }
{
    put(buf, at, u32::to_le_bytes(v));
}

pub fn put_u64(buf: &mut [u8], at: usize, v: u64)
    requires { at + 8 ≤ length buf.old }
    ensures { buf.new ≡ sets buf.old at (bytes_of 8 v) }
{
    put(buf, at, u64::to_le_bytes(v));
}

pub fn put_i64(buf: &mut [u8], at: usize, v: i64)
    requires { at + 8 ≤ length buf.old }
    ensures { buf.new ≡ sets buf.old at (bytes_of 8 (bytes_twos v)) }
{
    put(buf, at, i64::to_le_bytes(v));
}

// The bytes of a number of N bytes.
#[tactic(auto, using(crate::proofs::LibraryLaws::overwritten, crate::proofs::WidthLaws::stored_by_bytes))]
fn put<const N: usize>(buf: &mut [u8], at: usize, bytes: [u8; N])
    requires { at + N ≤ length buf.old }
    ensures { buf.new ≡ sets buf.old at bytes.entry }
{
    buf[at..at + N].copy_from_slice(&bytes);
}
