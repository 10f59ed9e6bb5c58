// The by-lists of a rule, each at the member that has it.
ghost use Rattle.std.specs.Prelude.{◌≡◌, suc, ◌+◌};
ghost use Rattle.json_ends.specs.Inner.Ends.{Ends};
ghost use Rattle.property.specs.Inner.Rows.{RowTo, placed};
ghost use Rattle.property.specs.Inner.Vocabulary.{word_of};
ghost use Rattle.json_walk.specs.Walk.{members_of};
ghost use Rattle.json_tree.specs.Inner.Members.{find_in};
ghost use Rattle.json_text.specs.Ascii.{ascii};
ghost use Rattle.event.specs.Reading.{entry};
ghost use Rattle.event.specs.Rules.{read_signed, read_month, read_nday, by_list};
ghost use Rattle.rule_text.specs.Inner.Members.{member_at};
ghost use Rattle.rule_text.specs.Inner.Reads.{Entries};
ghost use Rattle.rule_text.specs.Inner.Lists.{Placed, list_fault, DayEntries};

use crate::days::day_entries;
use crate::entries::{month_entries, signed_entries};
use crate::{DaysListed, Listed, Place};
use fault::{Fault, fault_at, join_at};
use json_text::bytes::byte;
use property::rows::place;
use property::vocabulary::{BY_DAY, BY_MONTH};

// Where the array stands that is the member of this name.
fn list_in(text: &[u8], at: usize, row: &[usize], word: usize) -> Place
    requires { RowTo (word + 1) text.now at row.now }
    ensures { Placed text.now (placed (find_in text.now (word_of word) (members_of text.now at))) result }
{
    match place(text, at, row, word) {
        Some(value) => {
            if byte(text, value) == 0x5B {
                return Place::At(value);
            }
            Place::Wrong(value)
        }
        None => Place::Absent,
    }
}

// The fault of a list with so many entries at a place, of whose entries' own the one that decides is given.
#[tactic(auto, unfolding(crate::specs::Inner::Lists::list_fault, fault::specs::Fault::faults_at, fault::specs::Fault::first, fault::specs::Fault::lower))]
fn list_fault(count: usize, at: usize, fault: Option<Fault>) -> Option<Fault>
    ensures { result ≡ list_fault count at fault }
{
    if count == 0 {
        return fault_at(25, at);
    }
    if 64 < count {
        return join_at(fault, 9, at);
    }
    fault
}

// byMonthDay and bySetPosition.
pub(crate) fn signed_list(
    text: &[u8],
    ends: &[u32],
    at: usize,
    row: &[usize],
    word: usize,
    most: u32,
    list: &mut [i64],
) -> Listed
    requires { Ends text.now ends.now × RowTo (word + 1) text.now at row.now }
    ensures { Entries (λ l. by_list (entry (read_signed most)) (member_at (suc l) text.now at (word_of word))) list.old list.new result.count result.fault }
{
    match list_in(text, at, row, word) {
        Place::At(i) => {
            let all = signed_entries(text, ends, i, most, list);
            let f = all.fault;
            Listed {
                count: all.count,
                fault: list_fault(all.count, i, f),
            }
        }
        Place::Absent => Listed {
            count: 0,
            fault: None,
        },
        Place::Wrong(i) => Listed {
            count: 0,
            fault: fault_at(20, i),
        },
    }
}

// byMonth
pub(crate) fn month_list(
    text: &[u8],
    ends: &[u32],
    at: usize,
    row: &[usize],
    list: &mut [u32],
) -> Listed
    requires { Ends text.now ends.now × RowTo 34 text.now at row.now }
    ensures { Entries (λ l. by_list (entry read_month) (member_at (suc l) text.now at (ascii "byMonth"))) list.old list.new result.count result.fault }
{
    match list_in(text, at, row, BY_MONTH) {
        Place::At(i) => {
            let months = month_entries(text, ends, i, list);
            let f = months.fault;
            Listed {
                count: months.count,
                fault: list_fault(months.count, i, f),
            }
        }
        Place::Absent => Listed {
            count: 0,
            fault: None,
        },
        Place::Wrong(i) => Listed {
            count: 0,
            fault: fault_at(20, i),
        },
    }
}

// byDay
pub(crate) fn day_list(
    text: &[u8],
    ends: &[u32],
    at: usize,
    row: &[usize],
    weekdays: &mut [u32],
    nths: &mut [i64],
) -> DaysListed
    requires { Ends text.now ends.now × RowTo 34 text.now at row.now }
    ensures { DayEntries (λ l. by_list read_nday (member_at (suc (suc l)) text.now at (ascii "byDay"))) weekdays.old weekdays.new nths.old nths.new result.count result.nth result.fault }
{
    match list_in(text, at, row, BY_DAY) {
        Place::At(i) => {
            let days = day_entries(text, ends, i, weekdays, nths);
            let f = days.fault;
            DaysListed {
                count: days.count,
                nth: days.nth,
                fault: list_fault(days.count, i, f),
            }
        }
        Place::Absent => DaysListed {
            count: 0,
            nth: false,
            fault: None,
        },
        Place::Wrong(i) => DaysListed {
            count: 0,
            nth: false,
            fault: fault_at(20, i),
        },
    }
}
