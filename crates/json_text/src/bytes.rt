// Bytes by their place, and runs of white space and digits.
ghost use Rattle.std.specs.Prelude.{◌≡◌};
ghost use Rattle.json_text.specs.Bytes.{is_space, is_digit, space_at, digits_at};
ghost use Rattle.json_text.specs.Inner.Reads.{ByteAt};

// The byte at a place; 0 past the end, so that only the reader of the whole text asks for its length.
pub fn byte(text: &[u8], i: usize) -> u8
    ensures { ByteAt text.now i result }
{
    text.get(i).copied().unwrap_or(0)
}

#[tactic(auto, unfolding(crate::specs::Bytes::is_space))]
fn is_space(b: u8) -> bool
    ensures { result ≡ is_space b }
{
    matches!(b, 0x20 | 0x09 | 0x0A | 0x0D)
}

#[tactic(auto, unfolding(crate::specs::Bytes::is_digit))]
pub fn is_digit(b: u8) -> bool
    ensures { result ≡ is_digit b }
{
    matches!(b, 0x30..=0x39)
}

// The place after white space. A place may lie past the end, where no slice begins: so this and `digits` ask for byte after
// byte by its place.
pub fn space(text: &[u8], at: usize) -> usize
    ensures { result ≡ space_at text.now at }
{
    let mut i = at;
    while is_space(byte(text, i)) {
        i += 1;
    }
    i
}

// The place after digits.
pub fn digits(text: &[u8], at: usize) -> usize
    ensures { result ≡ digits_at text.now at }
{
    let mut i = at;
    while is_digit(byte(text, i)) {
        i += 1;
    }
    i
}
