// Backslashes. A text without one has none in a name: most texts are such, and are known by one pass that does not stop, so
// that the machine looks at many bytes at once.
ghost use Rattle.std.specs.Prelude.{◌≡◌, ◌≢◌};
ghost use Rattle.json_walk.specs.Strings.{raw_at, slashed};
ghost use Rattle.json_names.specs.Inner.Slashes.{Clean};

use json_walk::strings::has_backslash;

// 0 as long as no byte was a backslash.
fn seen(any: u8, b: u8) -> u8
    ensures { result ≡ 0 → (any ≡ 0) × (b ≢ 0x5C) }
{
    if b == 0x5C {
        return 1;
    }
    any
}

// Is there no backslash in the text? It may say no where there is none.
pub(crate) fn slash_free(text: &[u8]) -> bool
    ensures { Clean text.now result }
{
    let mut any: u8 = 0;
    for b in text {
        any = seen(any, *b);
    }
    any == 0
}

// Has the name from a place to another a backslash? In a clean text none has.
pub(crate) fn slash_named(text: &[u8], clean: bool, name: usize, stop: usize) -> bool
    requires { Clean text.now clean }
    ensures { result ≡ slashed (raw_at text.now name stop) }
{
    if clean {
        return false;
    }
    has_backslash(text, name, stop)
}
