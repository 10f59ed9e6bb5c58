// The words of a rule: a value that is no string, and a string with a backslash, is none of them.
ghost use Rattle.std.specs.Prelude.{ℕ, ◌≡◌};
ghost use Rattle.json_walk.specs.Strings.{same};
ghost use Rattle.json_tree.specs.Tree.{tree_at};
ghost use Rattle.event.specs.Rules.{from_rate, from_named, read_frequency, read_weekday, read_month, read_scale, read_skip, read_type};
ghost use Rattle.rule_text.specs.Inner.Types.{type_of};

use crate::Object;
use json_text::bytes::byte;
use keywords::{Named, Rate};
use property::strings::{word, word_fault};

pub(crate) fn read_frequency(text: &[u8], at: usize) -> Rate
    ensures { (l : ℕ) → from_rate result ≡ read_frequency (tree_at l text.now at) }
{
    let wrong = word_fault(text, at);
    if wrong != 0 {
        return Rate::Fault(wrong);
    }
    keywords::rules::frequency(word(text, at))
}

pub(crate) fn read_weekday(text: &[u8], at: usize) -> Named
    ensures { (l : ℕ) → from_named result ≡ read_weekday (tree_at l text.now at) }
{
    let wrong = word_fault(text, at);
    if wrong != 0 {
        return Named::Wrong(wrong);
    }
    keywords::rules::weekday(word(text, at))
}

pub(crate) fn read_month(text: &[u8], at: usize) -> Named
    ensures { (l : ℕ) → from_named result ≡ read_month (tree_at l text.now at) }
{
    let wrong = word_fault(text, at);
    if wrong != 0 {
        return Named::Wrong(wrong);
    }
    keywords::months::month(word(text, at))
}

// The fault of an `rscale`.
pub(crate) fn read_scale(text: &[u8], at: usize) -> u32
    ensures { (l : ℕ) → result ≡ (read_scale (tree_at l text.now at)).fault }
{
    let wrong = word_fault(text, at);
    if wrong != 0 {
        return wrong;
    }
    keywords::rules::rscale(word(text, at))
}

// The fault of a `skip`.
pub(crate) fn read_skip(text: &[u8], at: usize) -> u32
    ensures { (l : ℕ) → result ≡ (read_skip (tree_at l text.now at)).fault }
{
    let wrong = word_fault(text, at);
    if wrong != 0 {
        return wrong;
    }
    keywords::rules::skip(word(text, at))
}

// Is this the `@type` of such an object?
fn is_type(raw: &[u8], object: Object) -> bool
    ensures { result ≡ same raw.now (type_of object) }
{
    match object {
        Object::Rule => keywords::is(raw, b"RecurrenceRule"),
        Object::Day => keywords::is(raw, b"NDay"),
    }
}

// The fault of an `@type`. The right one has no backslash, and is not looked through for one.
pub(crate) fn read_type(text: &[u8], at: usize, object: Object) -> u32
    ensures { (l : ℕ) → result ≡ (read_type (type_of object) (tree_at l text.now at)).fault }
{
    if byte(text, at) != 0x22 {
        return 20;
    }
    if is_type(word(text, at), object) {
        return 0;
    }
    let wrong = word_fault(text, at);
    if wrong != 0 {
        return wrong;
    }
    24
}

// What a name that was read stands for, and its fault.
pub(crate) fn number_of(x: Named) -> u32
    ensures { result ≡ (from_named x).value }
{
    match x {
        Named::Number(n) => n,
        Named::Wrong(_) => 0,
    }
}

pub(crate) fn fault_of(x: Named) -> u32
    ensures { result ≡ (from_named x).fault }
{
    match x {
        Named::Number(_) => 0,
        Named::Wrong(n) => n,
    }
}
