// The marks of the event.
ghost use Rattle.std.specs.Prelude.{ℕ, true, false, ◌≡◌};
ghost use Rattle.keywords.specs.declared.Privacy.TheVariants.{Public};
ghost use Rattle.property.specs.Inner.From.{from_setting, fields_in};
ghost use Rattle.json_text.specs.Ascii.{ascii};
ghost use Rattle.event.specs.Properties.{read_busy, read_boolean, read_privacy};
ghost use Rattle.event.specs.Reading.{optional};
ghost use Rattle.event.specs.Values.{member};
ghost use Rattle.override_text.specs.Inner.Meaning.{mark_in};
ghost use Rattle.event_text.specs.Inner.Held.{from_access};
ghost use Rattle.property.specs.Inner.Rows.{RowTo};

use crate::Access;
use keywords::Privacy;
use override_text::Mark;
use override_text::readings::{mark, status};
use property::Setting;
use property::marks::{read_boolean, read_busy, read_privacy};
use property::rows::place;
use property::vocabulary::{ALL_DAY, PRIVACY, STATUS};

pub(crate) fn busy(text: &[u8], at: usize, row: &[usize]) -> Mark
    requires { RowTo 18 text.now at row.now }
    ensures { (l : ℕ) → mark_in result ≡ optional true read_busy (member (ascii "freeBusyStatus") (fields_in l text.now at)) }
{
    match place(text, at, row, STATUS) {
        Some(i) => status(read_busy(text, i)),
        None => Mark {
            value: true,
            fault: 0,
        },
    }
}

pub(crate) fn all_day(text: &[u8], at: usize, row: &[usize]) -> Mark
    requires { RowTo 18 text.now at row.now }
    ensures { (l : ℕ) → mark_in result ≡ optional false read_boolean (member (ascii "showWithoutTime") (fields_in l text.now at)) }
{
    match place(text, at, row, ALL_DAY) {
        Some(i) => mark(read_boolean(text, i)),
        None => Mark {
            value: false,
            fault: 0,
        },
    }
}

fn access(read: Setting) -> Access
    ensures { from_access result ≡ from_setting read }
{
    match read {
        Setting::Is(privacy) => Access { privacy, fault: 0 },
        Setting::Fault(fault) => Access {
            privacy: Privacy::Private,
            fault,
        },
    }
}

pub(crate) fn privacy(text: &[u8], at: usize, row: &[usize]) -> Access
    requires { RowTo 18 text.now at row.now }
    ensures { (l : ℕ) → from_access result ≡ optional Public read_privacy (member (ascii "privacy") (fields_in l text.now at)) }
{
    match place(text, at, row, PRIVACY) {
        Some(i) => access(read_privacy(text, i)),
        None => Access {
            privacy: Privacy::Public,
            fault: 0,
        },
    }
}
