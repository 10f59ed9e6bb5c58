// The closed words of an event: its types, marks, frequencies, weekdays and months. Each reader is given the bytes between the quotes of a
// string, and answers what they name, with the fault of 01 for any other string.
#![tactic(auto)]

ghost use Rattle.std.specs.Prelude.{◌≡◌};
ghost use Rattle.json_walk.specs.Strings.{same};

pub mod marks;
pub mod months;
pub mod rules;
pub mod types;

#[derive(Clone, Copy)]
pub enum FreeBusy {
    Free,
    Busy,
    Fault(u32),
}

#[derive(Clone, Copy)]
pub enum Privacy {
    Public,
    Private,
    Secret,
}

#[derive(Clone, Copy)]
pub enum Rate {
    Daily,
    Weekly,
    Monthly,
    Yearly,
    Fault(u32),
}

// A weekday, 0 for Monday, or a month, from 1; or the fault.
#[derive(Clone, Copy)]
pub enum Named {
    Number(u32),
    Wrong(u32),
}

// Are the bytes of a string those of a word?
#[tactic(auto, using(crate::proofs::Laws::same_slice))]
pub fn is(raw: &[u8], word: &[u8]) -> bool
    ensures { result ≡ same raw.now word.now }
{
    raw == word
}
