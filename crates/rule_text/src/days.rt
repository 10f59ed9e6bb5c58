// byDay: entries that are objects.
ghost use Rattle.std.specs.Prelude.{◌≡◌, suc, ◌<◌, length, ◌||◌};
ghost use Rattle.json_tree.specs.Tree.{tree_at};
ghost use Rattle.json_ends.specs.Inner.Ends.{Ends};
ghost use Rattle.rule.specs.Inner.Read.{nth_from};
ghost use Rattle.event.specs.Rules.{read_nday};
ghost use Rattle.rule_text.specs.Inner.Reads.{entries_at};
ghost use Rattle.rule_text.specs.Inner.Lists.{is_some, DayReads, DayEntries};

use crate::entries::put;
use crate::members::{day_in, nth_in, type_in};
use crate::spelled::{fault_of, number_of};
use crate::{DayRead, DaysListed, Object};
use fault::{fault_at, lower};
use json_ends::arrays::{first_element, next_element};
use json_text::bytes::byte;
use property::rows::{fault_in, fill, join_in};
use property::vocabulary::{DAY, NTH, TYPE};
use signed::{negative_part, positive_part};

// An entry of byDay.
fn read_nday(text: &[u8], ends: &[u32], at: usize) -> DayRead
    requires { Ends text.now ends.now }
    ensures { DayReads (λ l. read_nday (tree_at (suc l) text.now at)) result.weekday result.nth result.fault }
{
    if byte(text, at) != 0x7B {
        return DayRead {
            weekday: 0,
            nth: 0,
            fault: fault_at(20, at),
        };
    }
    let mut row = [0usize; 3];
    fill(text, ends, at, &mut row);
    let day = day_in(text, at, &row);
    let nth = nth_in(text, at, &row);
    let kind = type_in(text, at, &row, Object::Day);
    let place = fault_in(text, at, &row, NTH, nth.fault);
    let others = join_in(text, at, &row, DAY, fault_of(day), place);
    DayRead {
        weekday: number_of(day),
        nth: nth.value,
        fault: join_in(text, at, &row, TYPE, kind, others),
    }
}

// Had an entry an nthOfPeriod, or has this one?
fn or_nth(any: bool, nth: i64) -> bool
    ensures { result ≡ (any || is_some (nth_from nth)) }
{
    any || (0 < positive_part(nth) || 0 < negative_part(nth))
}

pub(crate) fn day_entries(
    text: &[u8],
    ends: &[u32],
    at: usize,
    weekdays: &mut [u32],
    nths: &mut [i64],
) -> DaysListed
    requires { (at < length text.now) × Ends text.now ends.now }
    ensures { DayEntries (λ l. entries_at read_nday (suc l) text.now at) weekdays.old weekdays.new nths.old nths.new result.count result.nth result.fault }
{
    let mut step = first_element(text, ends, at);
    let mut nth = false;
    let mut fault = None;
    for count in 0..text.len() {
        let Some(e) = step else {
            return DaysListed { count, nth, fault };
        };
        let one = read_nday(text, ends, e.value);
        put(weekdays, count, one.weekday);
        put(nths, count, one.nth);
        nth = or_nth(nth, one.nth);
        fault = lower(fault, one.fault);
        step = next_element(text, ends, e.after);
    }
    DaysListed {
        count: text.len(),
        nth,
        fault,
    }
}
