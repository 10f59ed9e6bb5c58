// The entries of the by-lists, one after the other. All entries are read, also those that there is no room for: their faults count.
ghost use Rattle.std.specs.Prelude.{◌≡◌, ◌<◌, length, set};
ghost use Rattle.json_ends.specs.Inner.Ends.{Ends};
ghost use Rattle.event.specs.Reading.{entry};
ghost use Rattle.event.specs.Rules.{read_signed, read_month};
ghost use Rattle.rule_text.specs.Inner.Reads.{entries_at, Entries};

use crate::Listed;
use crate::numbers::signed_up_to;
use crate::spelled::{fault_of, number_of, read_month};
use fault::join_at;
use json_ends::arrays::{first_element, next_element};

// An entry goes to its place where there is room.
pub(crate) fn put<T: Copy>(list: &mut [T], at: usize, entry: T)
    ensures { list.new ≡ set list.old at entry }
{
    if at < list.len() {
        list[at] = entry;
    }
}

pub(crate) fn signed_entries(
    text: &[u8],
    ends: &[u32],
    at: usize,
    most: u32,
    list: &mut [i64],
) -> Listed
    requires { (at < length text.now) × Ends text.now ends.now }
    ensures { Entries (λ l. entries_at (entry (read_signed most)) l text.now at) list.old list.new result.count result.fault }
{
    let mut step = first_element(text, ends, at);
    let mut fault = None;
    for count in 0..text.len() {
        let Some(e) = step else {
            return Listed { count, fault };
        };
        let one = signed_up_to(text, e.value, most);
        put(list, count, one.value);
        fault = join_at(fault, one.fault, e.value);
        step = next_element(text, ends, e.after);
    }
    Listed {
        count: text.len(),
        fault,
    }
}

pub(crate) fn month_entries(text: &[u8], ends: &[u32], at: usize, list: &mut [u32]) -> Listed
    requires { (at < length text.now) × Ends text.now ends.now }
    ensures { Entries (λ l. entries_at (entry read_month) l text.now at) list.old list.new result.count result.fault }
{
    let mut step = first_element(text, ends, at);
    let mut fault = None;
    for count in 0..text.len() {
        let Some(e) = step else {
            return Listed { count, fault };
        };
        let one = read_month(text, e.value);
        put(list, count, number_of(one));
        fault = join_at(fault, fault_of(one), e.value);
        step = next_element(text, ends, e.after);
    }
    Listed {
        count: text.len(),
        fault,
    }
}
