// Texts: `title` and `description`. They may have escapes, which are kept.
ghost use Rattle.std.specs.Prelude.{ℕ, ◌≡◌};
ghost use Rattle.json_tree.specs.Tree.{tree_at};
ghost use Rattle.event.specs.Properties.{read_text};
ghost use Rattle.property.specs.Inner.From.{from_passage};

use crate::Passage;
use json_text::bytes::byte;

pub fn read_text(text: &[u8], at: usize) -> Passage
    ensures { (l : ℕ) → from_passage text.now result ≡ read_text (tree_at l text.now at) }
{
    if byte(text, at) == 0x22 {
        return Passage::At(at);
    }
    Passage::Fault(20)
}
