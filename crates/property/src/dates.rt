// Date-times: `updated`, `start` and `until`.
ghost use Rattle.std.specs.Prelude.{ℕ, ◌≡◌};
ghost use Rattle.json_tree.specs.Tree.{tree_at};
ghost use Rattle.event.specs.Properties.{from_local, read_updated, read_start, read_until};

use crate::strings::{word, word_fault};
use date_time::DateTime;
use date_time::local::local;
use date_time::utc::is_utc;

// The fault of an `updated`, 0 where there is none.
pub fn read_updated(text: &[u8], at: usize) -> u32
    ensures { (l : ℕ) → result ≡ (read_updated (tree_at l text.now at)).fault }
{
    let wrong = word_fault(text, at);
    if wrong != 0 {
        return wrong;
    }
    if is_utc(word(text, at)) {
        return 0;
    }
    21
}

pub fn read_start(text: &[u8], at: usize) -> DateTime
    ensures { (l : ℕ) → from_local result ≡ read_start (tree_at l text.now at) }
{
    let wrong = word_fault(text, at);
    if wrong != 0 {
        return DateTime::Fault(wrong);
    }
    local(word(text, at), 9998)
}

pub fn read_until(text: &[u8], at: usize) -> DateTime
    ensures { (l : ℕ) → from_local result ≡ read_until (tree_at l text.now at) }
{
    let wrong = word_fault(text, at);
    if wrong != 0 {
        return DateTime::Fault(wrong);
    }
    local(word(text, at), 9999)
}
