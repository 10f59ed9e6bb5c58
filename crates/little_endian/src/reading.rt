// Reads a number from its bytes, the lowest first.
ghost use Rattle.std.specs.Prelude.{◌≡◌, ◌+◌, ◌≤◌, length};
ghost use Rattle.little_endian.specs.Bytes.{number_at, signed_of};
ghost use Rattle.little_endian.specs.Inner.Reads.{Reads};

// The number of the N bytes at `at`.
#[tactic(auto, using(crate::proofs::WidthLaws::read_by_bytes))]
pub fn get<const N: usize>(s: &[u8], at: usize) -> u64
    requires width { N ≤ 8 }
    requires room { at + N ≤ length s.now }
    ensures { Reads N at s.now result }
{
    let mut bytes = [0; 8];
    bytes[..N].copy_from_slice(&s[at..at + N]);
    u64::from_le_bytes(bytes)
}

// The signed number of which the 8 bytes at `at` are the two's complement.
#[tactic(auto, using(crate::proofs::LibraryLaws::signed_back))]
pub fn get_i64(s: &[u8], at: usize) -> i64
    requires { at + 8 ≤ length s.now }
    ensures { result ≡ signed_of (number_at 8 at s.now) }
{
    get::<8>(s, at).cast_signed()
}
