// When the event starts and how long it lasts.
ghost use Rattle.std.specs.Prelude.{ℕ, ◌≡◌};
ghost use Rattle.json_text.specs.Ascii.{ascii};
ghost use Rattle.event.specs.Properties.{no_length, read_start, read_length};
ghost use Rattle.event.specs.Reading.{optional, required};
ghost use Rattle.event.specs.Values.{member};
ghost use Rattle.property.specs.Inner.From.{fields_in};
ghost use Rattle.override_text.specs.Inner.Meaning.{lasting_in, when_in};
ghost use Rattle.property.specs.Inner.Rows.{RowTo};

use override_text::readings::{lasting, when};
use override_text::{Lasting, When};
use property::dates::read_start;
use property::lengths::read_length;
use property::rows::place;
use property::vocabulary::{DURATION, START};

pub(crate) fn start(text: &[u8], at: usize, row: &[usize]) -> When
    requires { RowTo 18 text.now at row.now }
    ensures { (l : ℕ) → when_in result ≡ required 0 read_start (member (ascii "start") (fields_in l text.now at)) }
{
    match place(text, at, row, START) {
        Some(i) => when(read_start(text, i)),
        None => When {
            value: 0,
            fault: 26,
        },
    }
}

pub(crate) fn length(text: &[u8], at: usize, row: &[usize]) -> Lasting
    requires { RowTo 18 text.now at row.now }
    ensures { (l : ℕ) → lasting_in result ≡ optional no_length read_length (member (ascii "duration") (fields_in l text.now at)) }
{
    match place(text, at, row, DURATION) {
        Some(i) => lasting(read_length(text, i)),
        None => Lasting {
            days: 0,
            seconds: 0,
            fault: 0,
        },
    }
}
