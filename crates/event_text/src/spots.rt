// Strings that are kept by their places: the zone's name, the texts.
ghost use Rattle.std.specs.Prelude.{ℕ, ◌+◌, ◌≡◌};
ghost use Rattle.std.proofs.Math.Option.{none};
ghost use Rattle.property.specs.Inner.From.{from_zone, fields_in};
ghost use Rattle.json_text.specs.Ascii.{ascii};
ghost use Rattle.event.specs.Properties.{read_zone, read_text};
ghost use Rattle.event.specs.Reading.{optional};
ghost use Rattle.event.specs.Values.{member};
ghost use Rattle.override_text.specs.Inner.Meaning.{shown_in};
ghost use Rattle.event_text.specs.Inner.Held.{from_name};
ghost use Rattle.property.specs.Inner.Rows.{RowTo};
ghost use Rattle.property.specs.Inner.Vocabulary.{word_of};

use override_text::Shown;
use override_text::readings::shown;
use property::Zone;
use property::names::read_zone;
use property::rows::place;
use property::texts::read_text;
use property::vocabulary::ZONE;

fn named(text: &[u8], read: Zone) -> Shown
    ensures { from_name text.now result ≡ from_zone text.now read }
{
    match read {
        Zone::Floating => Shown {
            place: None,
            fault: 0,
        },
        Zone::Named(i) => Shown {
            place: Some(i),
            fault: 0,
        },
        Zone::Fault(fault) => Shown { place: None, fault },
    }
}

pub(crate) fn zone(text: &[u8], at: usize, row: &[usize]) -> Shown
    requires { RowTo 18 text.now at row.now }
    ensures { (l : ℕ) → from_name text.now result ≡ optional none read_zone (member (ascii "timeZone") (fields_in l text.now at)) }
{
    match place(text, at, row, ZONE) {
        Some(i) => named(text, read_zone(text, i)),
        None => Shown {
            place: None,
            fault: 0,
        },
    }
}

// `title` or `description`.
pub(crate) fn words(text: &[u8], at: usize, row: &[usize], word: usize) -> Shown
    requires { RowTo (word + 1) text.now at row.now }
    ensures { (l : ℕ) → shown_in text.now result ≡ optional none read_text (member (word_of word) (fields_in l text.now at)) }
{
    match place(text, at, row, word) {
        Some(i) => shown(text, read_text(text, i)),
        None => Shown {
            place: None,
            fault: 0,
        },
    }
}
