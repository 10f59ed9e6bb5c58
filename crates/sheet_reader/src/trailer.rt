// The whole sheet, from its trailer.
ghost use Rattle.std.specs.Prelude.{◌≡◌, ◌+◌, ◌*◌, ◌≤◌, length};
ghost use Rattle.sheet.specs.Reading.{version_of, count_of, fault_of};
ghost use Rattle.sheet_reader.specs.Inner.Refused.{number_of};

use crate::records::judge_rows;
use crate::refusal::Refusal;
use little_endian::reading::get;

// Whether the sheet is accepted, or else the first of the reader's refusals that applies.
pub fn accept(s: &[u8]) -> Result<(), Refusal>
    ensures { number_of result ≡ fault_of s.now }
{
    if s.len() < 12 {
        return Err(Refusal::TooShort);
    }
    let at = s.len() - 12;
    if get::<2>(s, at + 2) != 1 {
        return Err(Refusal::UnknownVersion);
    }
    if get::<2>(s, at) != 28 {
        return Err(Refusal::RecordSize);
    }
    let count = get::<4>(s, at + 4);
    let distance = get::<4>(s, at + 8);
    if distance != 28 * count || distance != at as u64 {
        return Err(Refusal::Distance);
    }
    judge_rows(s, 7, count as usize)
}

// 0, or 34 to 40: the number of the first of the reader's refusals that applies. A number beside `accept`'s Result, since docs/ARCHITECTURE.md
// names this function and its contract, `fault_of`, is a number.
pub fn judge(s: &[u8]) -> u32
    ensures { result ≡ fault_of s.now }
{
    match accept(s) {
        Ok(()) => 0,
        Err(refusal) => refusal as u32,
    }
}

// The number of records that the trailer says.
pub fn count(s: &[u8]) -> usize
    requires { 12 ≤ length s.now }
    ensures { result ≡ count_of s.now }
{
    let at = s.len() - 12;
    get::<4>(s, at + 4) as usize
}

// The version that the trailer says.
pub fn version(s: &[u8]) -> u32
    requires { 12 ≤ length s.now }
    ensures { result ≡ version_of s.now }
{
    let at = s.len() - 12;
    get::<2>(s, at + 2) as u32
}
