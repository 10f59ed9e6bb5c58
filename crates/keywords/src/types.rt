// The types of objects that are read.
ghost use Rattle.std.specs.Prelude.{◌≡◌};
ghost use Rattle.json_text.specs.Ascii.{ascii};
ghost use Rattle.json_walk.specs.Strings.{same};

use crate::is;

pub fn is_event(raw: &[u8]) -> bool
    ensures { result ≡ same raw.now (ascii "Event") }
{
    is(raw, b"Event")
}

pub fn is_rule(raw: &[u8]) -> bool
    ensures { result ≡ same raw.now (ascii "RecurrenceRule") }
{
    is(raw, b"RecurrenceRule")
}

pub fn is_nday(raw: &[u8]) -> bool
    ensures { result ≡ same raw.now (ascii "NDay") }
{
    is(raw, b"NDay")
}
