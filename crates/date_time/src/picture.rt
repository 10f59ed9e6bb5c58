// The written form of a date-time, compared with a picture of it.
ghost use Rattle.std.specs.Prelude.{◌≡◌};
ghost use Rattle.date_time.specs.Picture.{meets, follows};

use json_text::bytes::is_digit;

#[tactic(auto, unfolding(crate::specs::Picture::meets))]
fn meets(p: u8, b: u8) -> bool
    ensures { result ≡ meets p b }
{
    if p == 0x30 { is_digit(b) } else { b == p }
}

// Does the string begin as the picture shows?
pub(crate) fn follows(picture: &[u8], raw: &[u8]) -> bool
    ensures { result ≡ follows picture.now raw.now }
{
    if raw.len() < picture.len() {
        return false;
    }
    for i in 0..picture.len() {
        if !meets(picture[i], raw[i]) {
            return false;
        }
    }
    true
}
