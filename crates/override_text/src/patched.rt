// One property of the patch at a place: the event's own where the patch does not name it, the default where it is null.
ghost use Rattle.std.specs.Prelude.{ℕ, ◌+◌, ◌≡◌};
ghost use Rattle.json_tree.specs.Inner.Members.{find_in};
ghost use Rattle.json_walk.specs.Walk.{members_of};
ghost use Rattle.property.specs.Inner.From.{text_in};
ghost use Rattle.override_text.specs.Inner.Meaning.{span, when_in, lasting_in, mark_in, shown_in};
ghost use Rattle.override_text.specs.Inner.Patched.{Chosen, start_in, length_in, busy_in, flag_in, text_for};
ghost use Rattle.property.specs.Inner.Rows.{RowTo, placed};
ghost use Rattle.property.specs.Inner.Vocabulary.{word_of};

use crate::readings::{lasting, mark, shown, status, when};
use crate::{Lasting, Mark, Shown, When};
use property::dates::read_start;
use property::lengths::read_length;
use property::marks::{read_boolean, read_busy};
use property::nulls::is_null;
use property::rows::place;
use property::texts::read_text;
use property::vocabulary::{DURATION, START, STATUS};

// A null is no date-time.
pub(crate) fn start(text: &[u8], at: usize, row: &[usize], id: u64) -> When
    requires { RowTo 10 text.now at row.now }
    ensures { (l : ℕ) → when_in result ≡ start_in l id text.now at }
{
    match place(text, at, row, START) {
        Some(i) => when(read_start(text, i)),
        None => When {
            value: id,
            fault: 0,
        },
    }
}

// What is read where the patch names the property; the event's own where it does not, the default where it is null.
fn patched<T: Copy, F: FnOnce(usize) -> T>(
    text: &[u8],
    at: usize,
    row: &[usize],
    word: usize,
    own: T,
    default: T,
    read: F,
) -> T
    requires { RowTo (word + 1) text.now at row.now × F.IsAlwaysCallable read }
    ensures { (l : ℕ) → Chosen l text.now (placed (find_in text.now (word_of word) (members_of text.now at))) own default (F.post read) result }
{
    match place(text, at, row, word) {
        Some(i) if is_null(text, i) => default,
        Some(i) => read(i),
        None => own,
    }
}

pub(crate) fn length(text: &[u8], at: usize, row: &[usize], days: u64, seconds: u64) -> Lasting
    requires { RowTo 10 text.now at row.now }
    ensures { (l : ℕ) → lasting_in result ≡ length_in l (span days seconds) text.now at }
{
    let own = Lasting {
        days,
        seconds,
        fault: 0,
    };
    let none = Lasting {
        days: 0,
        seconds: 0,
        fault: 0,
    };
    let read = |i| lasting(read_length(text, i));
    patched(text, at, row, DURATION, own, none, read)
}

pub(crate) fn busy(text: &[u8], at: usize, row: &[usize], own: bool) -> Mark
    requires { RowTo 10 text.now at row.now }
    ensures { (l : ℕ) → mark_in result ≡ busy_in l own text.now at }
{
    let own = Mark {
        value: own,
        fault: 0,
    };
    let busy = Mark {
        value: true,
        fault: 0,
    };
    let read = |i| status(read_busy(text, i));
    patched(text, at, row, STATUS, own, busy, read)
}

// A boolean that is false by default.
pub(crate) fn flag(text: &[u8], at: usize, row: &[usize], word: usize, own: bool) -> Mark
    requires { RowTo (word + 1) text.now at row.now }
    ensures { (l : ℕ) → mark_in result ≡ flag_in l (word_of word) own text.now at }
{
    let own = Mark {
        value: own,
        fault: 0,
    };
    let unset = Mark {
        value: false,
        fault: 0,
    };
    let read = |i| mark(read_boolean(text, i));
    patched(text, at, row, word, own, unset, read)
}

pub(crate) fn passage(
    text: &[u8],
    at: usize,
    row: &[usize],
    word: usize,
    own: Option<usize>,
) -> Shown
    requires { RowTo (word + 1) text.now at row.now }
    ensures { (l : ℕ) → shown_in text.now result ≡ text_for l (word_of word) (text_in text.now own) text.now at }
{
    let own = Shown {
        place: own,
        fault: 0,
    };
    let none = Shown {
        place: None,
        fault: 0,
    };
    let read = |i| shown(text, read_text(text, i));
    patched(text, at, row, word, own, none, read)
}
