// Marks of an event: `freeBusyStatus`, `showWithoutTime` and other booleans, `privacy`.
ghost use Rattle.std.specs.Prelude.{ℕ, ◌≡◌};
ghost use Rattle.json_tree.specs.Tree.{tree_at};
ghost use Rattle.event.specs.Properties.{from_status, read_busy, read_boolean, read_privacy};
ghost use Rattle.property.specs.Inner.From.{from_flag, from_setting};

use crate::strings::{word, word_fault};
use crate::{Flag, Setting};
use json_tree::Kind;
use json_tree::kinds::kind;
use keywords::FreeBusy;
use keywords::marks::{free_busy, privacy};

pub fn read_busy(text: &[u8], at: usize) -> FreeBusy
    ensures { (l : ℕ) → from_status result ≡ read_busy (tree_at l text.now at) }
{
    let wrong = word_fault(text, at);
    if wrong != 0 {
        return FreeBusy::Fault(wrong);
    }
    free_busy(word(text, at))
}

pub fn read_boolean(text: &[u8], at: usize) -> Flag
    ensures { (l : ℕ) → from_flag result ≡ read_boolean (tree_at l text.now at) }
{
    match kind(text, at) {
        Kind::False => Flag::Is(false),
        Kind::True => Flag::Is(true),
        Kind::Null => Flag::Fault(20),
        Kind::Number => Flag::Fault(20),
        Kind::String => Flag::Fault(20),
        Kind::Array => Flag::Fault(20),
        Kind::Object => Flag::Fault(20),
    }
}

pub fn read_privacy(text: &[u8], at: usize) -> Setting
    ensures { (l : ℕ) → from_setting result ≡ read_privacy (tree_at l text.now at) }
{
    let wrong = word_fault(text, at);
    if wrong != 0 {
        return Setting::Fault(wrong);
    }
    Setting::Is(privacy(word(text, at)))
}
