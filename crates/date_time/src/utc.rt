// UTCDateTime: a date and a time of day in UTC.
ghost use Rattle.std.specs.Prelude.{◌≡◌};
ghost use Rattle.date_time.specs.Utc.{ends_in_z, is_utc};

use crate::parts::{date, is_real, is_time};
use crate::picture::follows;
use digits::legal_fraction;
use json_text::bytes::byte;

// Is what stands after the seconds right?
#[tactic(auto, unfolding(crate::specs::Utc::ends_in_z))]
fn ends_in_z(raw: &[u8]) -> bool
    ensures { result ≡ ends_in_z raw.now }
{
    let n = raw.len();
    let mark = byte(raw, 19);
    if n == 20 {
        return mark == 0x5A;
    }
    if n < 21 {
        return false;
    }
    if mark != 0x2E {
        return false;
    }
    let end = n - 1;
    if byte(raw, end) != 0x5A {
        return false;
    }
    legal_fraction(&raw[20..end])
}

#[tactic(auto, unfolding(crate::specs::Utc::is_utc))]
pub fn is_utc(raw: &[u8]) -> bool
    ensures { result ≡ is_utc raw.now }
{
    follows(b"0000-00-00T00:00:00", raw) && is_real(date(raw)) && is_time(raw) && ends_in_z(raw)
}
