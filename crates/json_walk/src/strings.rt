// The raw bytes of strings: compared, and looked through for a backslash.
ghost use Rattle.std.specs.Prelude.{◌≡◌, ◌-◌};
ghost use Rattle.json_walk.specs.Strings.{bytes_at, raw_at, same, slashed};
ghost use Rattle.json_walk.specs.Inner.Within.{ahead, within};

use json_text::bytes::byte;

// The place after i; past the end of the text i itself.
#[tactic(auto, unfolding(crate::specs::Inner::Within::ahead))]
pub fn step(text: &[u8], i: usize) -> usize
    ensures { result ≡ ahead text.now i }
{
    if i < text.len() {
        return i + 1;
    }
    i
}

// How many bytes stand between the quotes of a string from k to j.
pub fn inside(k: usize, j: usize) -> usize
    ensures { result ≡ within k j }
{
    j.saturating_sub(k).saturating_sub(2)
}

// Are the n bytes at a place of one text those at a place of another, or of the same? They are no slices that `==` would
// compare: the contracts of `same_raw` and `raw_is` hold for places past the end too, where `bytes_at` has the byte 0.
fn same_bytes(text: &[u8], a: usize, other: &[u8], b: usize, count: usize) -> bool
    ensures { result ≡ same (bytes_at count text.now a) (bytes_at count other.now b) }
{
    let mut i = a;
    let mut j = b;
    for _ in 0..count {
        if byte(text, i) != byte(other, j) {
            return false;
        }
        i = step(text, i);
        j = step(other, j);
    }
    true
}

// Are the raw bytes of two strings the same?
pub fn same_raw(text: &[u8], a: usize, d: usize, b: usize, e: usize) -> bool
    ensures { result ≡ same (raw_at text.now a d) (raw_at text.now b e) }
{
    let n = inside(a, d);
    let m = inside(b, e);
    n == m && same_bytes(text, step(text, a), text, step(text, b), n)
}

// Are the raw bytes of a string these?
pub fn raw_is(text: &[u8], k: usize, j: usize, word: &[u8]) -> bool
    ensures { result ≡ same (raw_at text.now k j) word.now }
{
    let n = inside(k, j);
    n == word.len() && same_bytes(text, step(text, k), word, 0, n)
}

// Is there a backslash among the n bytes at a?
fn slash_in(text: &[u8], a: usize, count: usize) -> bool
    ensures { result ≡ slashed (bytes_at count text.now a) }
{
    let mut i = a;
    for _ in 0..count {
        if byte(text, i) == 0x5C {
            return true;
        }
        i = step(text, i);
    }
    false
}

// Is there a backslash in a string?
pub fn has_backslash(text: &[u8], k: usize, j: usize) -> bool
    ensures { result ≡ slashed (raw_at text.now k j) }
{
    slash_in(text, step(text, k), inside(k, j))
}
