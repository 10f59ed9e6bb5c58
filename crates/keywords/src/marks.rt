// Whether an event is busy, and who may see it. The words are compared one by one: a match has a goal for each byte that differs, and those stayed open.
ghost use Rattle.std.specs.Prelude.{◌≡◌};
ghost use Rattle.keywords.specs.Marks.{free_busy_of, privacy_of};

use crate::{FreeBusy, Privacy, is};

#[tactic(auto, unfolding(crate::specs::Marks::free_busy_of))]
pub fn free_busy(raw: &[u8]) -> FreeBusy
    ensures { result ≡ free_busy_of raw.now }
{
    if is(raw, b"free") {
        return FreeBusy::Free;
    }
    if is(raw, b"busy") {
        return FreeBusy::Busy;
    }
    FreeBusy::Fault(24)
}

#[tactic(auto, unfolding(crate::specs::Marks::privacy_of))]
pub fn privacy(raw: &[u8]) -> Privacy
    ensures { result ≡ privacy_of raw.now }
{
    if is(raw, b"public") {
        return Privacy::Public;
    }
    if is(raw, b"private") {
        return Privacy::Private;
    }
    if is(raw, b"secret") {
        return Privacy::Secret;
    }
    Privacy::Private
}
