// The records and the trailer of the table of occurrences, written into a lent buffer.
ghost use Rattle.std.specs.Prelude.{if◌then◌else◌, ◌≡◌, ◌+◌, ◌*◌, ◌≤◌, ◌<◌, ◌^◌, length};
ghost use Rattle.std.proofs.lemmas.List.Edits.{sets};
ghost use Rattle.sheet.specs.Writing.{row_bytes, trailer_bytes};
ghost use Rattle.call_definitions.specs.Bytes.{written_version};
ghost use Rattle.record.specs.Inner.Rows.{marks_for};

use little_endian::{put_i64, put_u16, put_u32};

// Busy 1, all-day 2, floating 4.
#[tactic(auto, unfolding(crate::specs::Inner::Rows::marks_for))]
pub(crate) fn marks(busy: bool, allday: bool, floating: bool) -> u8
    ensures { result ≡ marks_for busy allday floating }
{
    u8::from(busy) + 2 * u8::from(allday) + 4 * u8::from(floating)
}

// The marks and the three zeros after them are one number of four bytes.
pub(crate) fn put_record(buf: &mut [u8], at: usize, id: i64, start: i64, end: i64, marks: u8)
    requires { at + 28 ≤ length buf.old }
    ensures { buf.new ≡ sets buf.old at (row_bytes (record { id = id; start = start; end = end; marks = marks })) }
{
    put_i64(buf, at, id);
    put_i64(buf, at + 8, start);
    put_i64(buf, at + 16, end);
    put_u32(buf, at + 24, u32::from(marks));
}

// Both numbers are written by their lowest four bytes: all of them, in a table of less than 2^32 bytes.
pub fn put_trailer(buf: &mut [u8], at: usize, count: u64)
    requires { (at + 12 ≤ length buf.old) × (28 * count < 2 ^ 64) }
    ensures { buf.new ≡ sets buf.old at (trailer_bytes written_version count) }
{
    put_u16(buf, at, 28);
    put_u16(buf, at + 2, 1);
    put_u32(buf, at + 4, (count % 4294967296) as u32);
    put_u32(buf, at + 8, (28 * count % 4294967296) as u32);
}
