// Numbers, marks and texts on the output.
use property::strings::word;
use std::fmt::Display;
use std::io;

pub(crate) fn say(rt: &impl Print, words: &[u8]) -> io::Result<()> {
    rt.write_all(words)
}

pub(crate) fn show<T: Copy + Display>(rt: &impl Print, n: T) -> io::Result<()> {
    print!(rt; "{n}")
}

pub(crate) fn mark(rt: &impl Print, name: &[u8], set: bool) -> io::Result<()> {
    say(rt, name)?;
    show(rt, u32::from(set))
}

pub(crate) fn passage(
    rt: &impl Print,
    name: &[u8],
    text: &[u8],
    place: Option<usize>,
) -> io::Result<()> {
    say(rt, name)?;
    match place {
        None => say(rt, b"-"),
        Some(at) => {
            say(rt, b"\"")?;
            say(rt, word(text, at))?;
            say(rt, b"\"")
        }
    }
}
