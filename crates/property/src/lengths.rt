// How long an occurrence lasts: `duration`.
ghost use Rattle.std.specs.Prelude.{ℕ, ◌≡◌};
ghost use Rattle.json_tree.specs.Tree.{tree_at};
ghost use Rattle.event.specs.Properties.{from_span, read_length};

use crate::strings::{word, word_fault};
use duration::Span;
use duration::length::length;

pub fn read_length(text: &[u8], at: usize) -> Span
    ensures { (l : ℕ) → from_span result ≡ read_length (tree_at l text.now at) }
{
    let wrong = word_fault(text, at);
    if wrong != 0 {
        return Span::Fault(wrong);
    }
    length(word(text, at))
}
