// The value null.
ghost use Rattle.std.specs.Prelude.{ℕ, ◌≡◌};
ghost use Rattle.json_tree.specs.Tree.{tree_at};
ghost use Rattle.event.specs.Values.{is_null};

use json_text::bytes::byte;

// Is the value at a place null? No other value begins with its first letter, 0x6E.
pub fn is_null(text: &[u8], at: usize) -> bool
    ensures { (l : ℕ) → result ≡ is_null (tree_at l text.now at) }
{
    byte(text, at) == 0x6E
}
