// Months as `byMonth` writes them.
ghost use Rattle.std.specs.Prelude.{◌≡◌};
ghost use Rattle.keywords.specs.Months.{month_written, month_of};

use crate::Named;
use digits::digit;

// "1" to "12" as a number, and 0 for any other string.
#[tactic(auto, unfolding(crate::specs::Months::month_written, json_text::specs::Bytes::is_digit))]
fn written(raw: &[u8]) -> u32
    ensures { result ≡ month_written raw.now }
{
    match raw {
        [a @ b'0'..=b'9'] => digit(*a),
        [b'1', b @ b'0'..=b'2'] => 10 + digit(*b),
        _ => 0,
    }
}

// A leap month, which is not supported, has an L after its number.
#[tactic(auto, unfolding(crate::specs::Months::month_of))]
pub fn month(raw: &[u8]) -> Named
    ensures { result ≡ month_of raw.now }
{
    let m = written(raw);
    if 1 <= m {
        return Named::Number(m);
    }
    match raw {
        [number @ .., b'L'] if 1 <= written(number) => Named::Wrong(8),
        _ => Named::Wrong(24),
    }
}
