// The patch at a place, as a whole: what it makes of an occurrence. Whether it is right is judged apart.
ghost use Rattle.std.specs.Prelude.{ℕ, ◌≡◌};
ghost use Rattle.json_ends.specs.Inner.Ends.{Ends};
ghost use Rattle.event.specs.Overrides.{patch_in};
ghost use Rattle.property.specs.Inner.From.{fields_in};
ghost use Rattle.property.specs.Inner.Rows.{RowTo};
ghost use Rattle.override_text.specs.Inner.Meaning.{details_in, override_in};
ghost use Rattle.override_text.specs.Inner.Patched.{patch_at};

use crate::patched::{busy, flag, length, passage, start};
use crate::{Own, Patch};
use json_text::bytes::byte;
use property::rows::fill;
use property::vocabulary::{ALL_DAY, DESCRIPTION, EXCLUDED, TITLE};

// The patch object at a place, with the row of its members.
fn patch_by(text: &[u8], at: usize, row: &[usize], own: Own, id: u64) -> Patch
    requires { RowTo 10 text.now at row.now }
    ensures { (l : ℕ) → override_in text.now id result ≡ (patch_in (details_in text.now own) id at (fields_in l text.now at)).value }
{
    let when = start(text, at, row, id);
    let lasting = length(text, at, row, own.days, own.seconds);
    let status = busy(text, at, row, own.busy);
    let allday = flag(text, at, row, ALL_DAY, own.allday);
    let title = passage(text, at, row, TITLE, own.title);
    let description = passage(text, at, row, DESCRIPTION, own.description);
    let excluded = flag(text, at, row, EXCLUDED, false);
    Patch {
        excluded: excluded.value,
        start: when.value,
        days: lasting.days,
        seconds: lasting.seconds,
        busy: status.value,
        allday: allday.value,
        title: title.place,
        description: description.place,
    }
}

// The patch object at a place.
fn patch_in(text: &[u8], ends: &[u32], at: usize, own: Own, id: u64) -> Patch
    requires { Ends text.now ends.now }
    ensures { (l : ℕ) → override_in text.now id result ≡ (patch_in (details_in text.now own) id at (fields_in l text.now at)).value }
{
    let mut row = [0usize; 10];
    fill(text, ends, at, &mut row);
    patch_by(text, at, &row, own, id)
}

// The occurrence id after the patch at a place. A value that is no object changes nothing.
pub fn patch(text: &[u8], ends: &[u32], at: usize, own: Own, id: u64) -> Patch
    requires { Ends text.now ends.now }
    ensures { (l : ℕ) → override_in text.now id result ≡ (patch_at l (details_in text.now own) id text.now at).value }
{
    if byte(text, at) == 0x7B {
        return patch_in(text, ends, at, own, id);
    }
    Patch {
        excluded: false,
        start: own.start,
        days: own.days,
        seconds: own.seconds,
        busy: own.busy,
        allday: own.allday,
        title: own.title,
        description: own.description,
    }
}
