// The lowest of 10 to 12 that applies to a call, or 0. 13 needs the table's length, and is found where the table is counted.
ghost use Rattle.std.specs.Prelude.{◌≡◌};
ghost use Rattle.call_definitions.specs.Answer.{is_secret, is_public, other_zone};
ghost use Rattle.call_definitions.specs.Utc.{is_floating};
ghost use Rattle.call_definitions.specs.Results.{zones_of};
ghost use Rattle.property.specs.Inner.From.{name_in};
ghost use Rattle.opening.specs.Inner.Refusal.{refusal_for};

use event_text::Head;
use keywords::Privacy;
use property::strings::word;
use record::window::valid_window;

pub fn is_secret(privacy: Privacy) -> bool
    ensures { result ≡ is_secret privacy }
{
    matches!(privacy, Privacy::Secret)
}

pub fn is_public(privacy: Privacy) -> bool
    ensures { result ≡ is_public privacy }
{
    matches!(privacy, Privacy::Public)
}

// A zone that is absent or null is floating.
pub fn is_floating(text: &[u8], zone: Option<usize>) -> bool
    ensures { result ≡ is_floating (name_in text.now zone) }
{
    zone.is_none()
}

// Is the event's zone set, and another than the table's name?
#[tactic(auto, unfolding(call_definitions::specs::Answer::other_zone))]
fn other_zone(text: &[u8], zone: Option<usize>, name: &[u8]) -> bool
    ensures { result ≡ other_zone (name_in text.now zone) name.now }
{
    zone.is_some_and(|at| !keywords::is(word(text, at), name))
}

// A secret event never answers 12: that would tell its zone.
#[tactic(auto, unfolding(crate::specs::Inner::Refusal::refusal_for))]
pub fn call_fault(
    text: &[u8],
    head: Head,
    name: &[u8],
    initial: i64,
    instants: &[i64],
    offsets: &[i64],
    from: i64,
    to: i64,
) -> u32
    ensures { result ≡ refusal_for (zones_of name.now initial instants.now offsets.now) from to head.privacy (name_in text.now head.zone) }
{
    if !zone::valid(initial, instants, offsets) {
        return 10;
    }
    if !valid_window(from, to) {
        return 11;
    }
    if !is_secret(head.privacy) && other_zone(text, head.zone, name) {
        return 12;
    }
    0
}
