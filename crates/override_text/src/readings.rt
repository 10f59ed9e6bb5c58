// What a reader answers, as a value and a fault.
ghost use Rattle.std.specs.Prelude.{◌≡◌};
ghost use Rattle.event.specs.Properties.{from_local, from_span, from_status};
ghost use Rattle.property.specs.Inner.From.{from_flag, from_passage};
ghost use Rattle.override_text.specs.Inner.Meaning.{when_in, lasting_in, mark_in, shown_in};

use crate::{Lasting, Mark, Shown, When};
use date_time::DateTime;
use duration::Span;
use keywords::FreeBusy;
use property::{Flag, Passage};

pub fn when(d: DateTime) -> When
    ensures { when_in result ≡ from_local d }
{
    match d {
        DateTime::At(x) => When { value: x, fault: 0 },
        DateTime::Fault(n) => When { value: 0, fault: n },
    }
}

pub fn lasting(d: Span) -> Lasting
    ensures { lasting_in result ≡ from_span d }
{
    match d {
        Span::Of(days, seconds) => Lasting {
            days,
            seconds,
            fault: 0,
        },
        Span::Fault(n) => Lasting {
            days: 0,
            seconds: 0,
            fault: n,
        },
    }
}

pub fn status(b: FreeBusy) -> Mark
    ensures { mark_in result ≡ from_status b }
{
    match b {
        FreeBusy::Free => Mark {
            value: false,
            fault: 0,
        },
        FreeBusy::Busy => Mark {
            value: true,
            fault: 0,
        },
        FreeBusy::Fault(n) => Mark {
            value: true,
            fault: n,
        },
    }
}

pub fn mark(f: Flag) -> Mark
    ensures { mark_in result ≡ from_flag f }
{
    match f {
        Flag::Is(b) => Mark { value: b, fault: 0 },
        Flag::Fault(n) => Mark {
            value: false,
            fault: n,
        },
    }
}

// The text is there for the contract: a place means the text that stands there.
pub fn shown(text: &[u8], p: Passage) -> Shown
    ensures { shown_in text.now result ≡ from_passage text.now p }
{
    match p {
        Passage::At(i) => Shown {
            place: Some(i),
            fault: 0,
        },
        Passage::Fault(n) => Shown {
            place: None,
            fault: n,
        },
    }
}
