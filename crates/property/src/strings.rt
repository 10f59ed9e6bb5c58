// Strings by their place.
ghost use Rattle.std.specs.Prelude.{◌≡◌};
ghost use Rattle.property.specs.Inner.Words.{word_fault_at, word_at};

use json_text::bytes::byte;
use json_text::strings::string;
use json_tree::raws::raw;
use json_walk::strings::has_backslash;

// What keeps the value at a place from being a string without a backslash: 20, 26, or 0 for nothing.
pub fn word_fault(text: &[u8], at: usize) -> u32
    ensures { result ≡ word_fault_at text.now at }
{
    if byte(text, at) != 0x22 {
        return 20;
    }
    match string(text, at) {
        Ok(stop) if has_backslash(text, at, stop) => 26,
        _ => 0,
    }
}

// The bytes between its quotes, as a part of the text; no bytes where it is no string.
pub fn word(text: &[u8], at: usize) -> &[u8]
    ensures { result.now ≡ word_at text.now at }
{
    match string(text, at) {
        Ok(stop) => raw(text, at, stop),
        Err(_) => &text[..0],
    }
}
