// Escaped surrogates, and texts without them. The escape of one begins with a backslash, u and D: most texts have no such
// three bytes, and are known by one pass that does not stop, so that the machine looks at many bytes at once.
ghost use Rattle.std.specs.Prelude.{◌≡◌, true, false, ◌≤◌, length, is_ok};
ghost use Rattle.json_strict.specs.Inner.Slashes.{Small, differ, lacks_d, front, NoFront};
ghost use Rattle.json_strict.specs.Surrogates.{pairs_at};

use crate::surrogates::pairs;

// 0 where two bytes are the same, else 1.
fn differs(a: u8, b: u8) -> u8
    ensures { Small (differ a b) result }
{
    if a == b {
        return 0;
    }
    1
}

// 0 where a byte is a D, in either case, else 1.
fn lacks_d(c: u8) -> u8
    ensures { Small (lacks_d c) result }
{
    if c == 0x44 {
        return 0;
    }
    differs(c, 0x64)
}

// 0 as long as no three bytes began the escape of a surrogate. A sum in place of three branches lets the pass over the text
// go many bytes at a time.
fn seen(any: u8, a: u8, b: u8, c: u8) -> u8
    ensures { result ≡ 0 → (any ≡ 0) × (front a b c ≡ false) }
{
    if differs(a, 0x5C) + differs(b, 0x75) + lacks_d(c) == 0 {
        return 1;
    }
    any
}

// Is there no escape of a surrogate in the text? It may say no where there is none.
fn surrogate_free(text: &[u8]) -> bool
    ensures { result ≡ true → NoFront text.now (length text.now) }
{
    let mut any: u8 = 0;
    for i in 2..text.len() {
        any = seen(any, text[i - 2], text[i - 1], text[i]);
    }
    any == 0
}

// Has each escaped surrogate its partner, in the whole text?
pub(crate) fn paired(text: &[u8]) -> bool
    requires { length text.now ≤ 65536 }
    ensures { result ≡ is_ok (pairs_at (length text.now) text.now 0) }
{
    surrogate_free(text) || pairs(text).is_ok()
}
