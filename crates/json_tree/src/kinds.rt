// The kind of a value, by its first byte.
ghost use Rattle.std.specs.Prelude.{◌≡◌};
ghost use Rattle.json_tree.specs.Inner.Kinds.{kind_at};

use crate::Kind;
use json_text::bytes::byte;

// The kind of the value at a place of a JSON text.
#[tactic(auto, unfolding(crate::specs::Inner::Kinds::kind_at))]
pub fn kind(text: &[u8], at: usize) -> Kind
    ensures { result ≡ kind_at text.now at }
{
    match byte(text, at) {
        0x7B => Kind::Object,
        0x5B => Kind::Array,
        0x22 => Kind::String,
        0x66 => Kind::False,
        0x6E => Kind::Null,
        0x74 => Kind::True,
        _ => Kind::Number,
    }
}
