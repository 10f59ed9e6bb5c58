// Names that have at least one byte: `uid` and `timeZone`.
ghost use Rattle.std.specs.Prelude.{ℕ, ◌≡◌};
ghost use Rattle.json_tree.specs.Tree.{tree_at};
ghost use Rattle.event.specs.Properties.{read_uid, read_zone};
ghost use Rattle.property.specs.Inner.From.{from_zone};
ghost use Rattle.property.specs.Inner.Words.{filled_fault_at};

use crate::Zone;
use crate::nulls::is_null;
use crate::strings::{word, word_fault};

// What keeps the value at a place from being a string without a backslash that has bytes: 20, 26, or 0 for nothing.
pub fn filled_fault(text: &[u8], at: usize) -> u32
    ensures { result ≡ filled_fault_at text.now at }
{
    let wrong = word_fault(text, at);
    if wrong != 0 {
        return wrong;
    }
    let raw = word(text, at);
    if 0 < raw.len() {
        return 0;
    }
    26
}

// The fault of a `uid`, 0 where there is none.
pub fn read_uid(text: &[u8], at: usize) -> u32
    ensures { (l : ℕ) → result ≡ (read_uid (tree_at l text.now at)).fault }
{
    filled_fault(text, at)
}

pub fn read_zone(text: &[u8], at: usize) -> Zone
    ensures { (l : ℕ) → from_zone text.now result ≡ read_zone (tree_at l text.now at) }
{
    if is_null(text, at) {
        return Zone::Floating;
    }
    let wrong = filled_fault(text, at);
    if wrong != 0 {
        return Zone::Fault(wrong);
    }
    Zone::Named(at)
}
