// Runs of plain bytes in a string: ASCII chars that stand for themselves. Nearly all of a text's bytes are such,
// so a string's reader steps over a run of them in one tight loop, with no answer made for each byte; and over a long run
// in blocks, by tests that do not stop, so that the machine looks at many bytes at once.
ghost use Rattle.std.specs.Prelude.{true, ◌≡◌, ◌+◌, ◌≤◌, length};
ghost use Rattle.json_text.specs.Inner.Plain.{is_plain, plain_at, PlainRun};

use crate::bytes::byte;

// No quotation mark, no backslash, no control byte, and no part of a char of several bytes.
#[tactic(auto, unfolding(crate::specs::Inner::Plain::is_plain))]
pub(crate) fn is_plain(b: u8) -> bool
    ensures { result ≡ is_plain b }
{
    b != 0x22 && b != 0x5C && 0x20 <= b && b < 0x80
}

// 1 where two bytes are the same, else 0.
fn same(a: u8, b: u8) -> u8
    ensures { (result ≡ 0 → a ≡ b → ⊥) × (result ≤ 1) }
{
    u8::from(a == b)
}

// 1 where a byte is below another, else 0.
fn below(a: u8, b: u8) -> u8
    ensures { (result ≡ 0 → b ≤ a) × (result ≤ 1) }
{
    u8::from(a < b)
}

// 0 as long as each byte was plain. A sum in place of branches lets a block be tested as a whole.
fn mixed(any: u8, b: u8) -> u8
    ensures { result ≡ 0 → (any ≡ 0) × (is_plain b ≡ true) }
{
    if same(b, 0x22) + same(b, 0x5C) + below(b, 0x20) + below(0x7F, b) == 0 {
        return any;
    }
    1
}

// Are the 64 bytes at a place plain?
fn block(text: &[u8], at: usize) -> bool
    requires { at + 64 ≤ length text.now }
    ensures { result ≡ true → PlainRun text.now at 64 }
{
    let mut any: u8 = 0;
    for b in &text[at..at + 64] {
        any = mixed(any, *b);
    }
    any == 0
}

// The place after the plain blocks at a place.
fn blocks(text: &[u8], at: usize) -> usize
    requires { at ≤ length text.now }
    ensures { plain_at text.now result ≡ plain_at text.now at }
{
    let mut i = at;
    while 64 <= text.len() - i && block(text, i) {
        i += 64;
    }
    i
}

// The place after plain bytes, one by one.
fn single(text: &[u8], at: usize) -> usize
    ensures { result ≡ plain_at text.now at }
{
    let mut i = at;
    while is_plain(byte(text, i)) {
        i += 1;
    }
    i
}

// The place after plain bytes. Most runs are short: only one that goes on after 32 bytes is worth blocks.
pub(crate) fn plain(text: &[u8], at: usize) -> usize
    ensures { result ≡ plain_at text.now at }
{
    let mut i = at;
    while is_plain(byte(text, i)) {
        if i - at == 32 {
            return single(text, blocks(text, i));
        }
        i += 1;
    }
    i
}
