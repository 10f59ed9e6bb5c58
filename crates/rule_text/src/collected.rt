// The by-lists in arrays of their own.
ghost use Rattle.std.specs.Prelude.{suc, ◌+◌};
ghost use Rattle.json_ends.specs.Inner.Ends.{Ends};
ghost use Rattle.property.specs.Inner.Rows.{RowTo};
ghost use Rattle.property.specs.Inner.Vocabulary.{word_of};
ghost use Rattle.json_text.specs.Ascii.{ascii};
ghost use Rattle.event.specs.Reading.{entry};
ghost use Rattle.event.specs.Rules.{read_signed, read_month, read_nday, by_list};
ghost use Rattle.rule_text.specs.Inner.Members.{member_at};
ghost use Rattle.rule_text.specs.Inner.Parts.{Collected, DaysCollected};

use crate::lists::{day_list, month_list, signed_list};
use crate::{DayList, MonthList, NumberList};

pub(crate) fn numbers(
    text: &[u8],
    ends: &[u32],
    at: usize,
    row: &[usize],
    word: usize,
    most: u32,
) -> NumberList
    requires { Ends text.now ends.now × RowTo (word + 1) text.now at row.now }
    ensures { Collected (λ l. by_list (entry (read_signed most)) (member_at (suc l) text.now at (word_of word))) result.list result.count result.fault }
{
    let mut list = [0i64; 64];
    let all = signed_list(text, ends, at, row, word, most, &mut list);
    let f = all.fault;
    NumberList {
        list,
        count: all.count,
        fault: f,
    }
}

pub(crate) fn months(text: &[u8], ends: &[u32], at: usize, row: &[usize]) -> MonthList
    requires { Ends text.now ends.now × RowTo 34 text.now at row.now }
    ensures { Collected (λ l. by_list (entry read_month) (member_at (suc l) text.now at (ascii "byMonth"))) result.list result.count result.fault }
{
    let mut list = [0u32; 64];
    let year = month_list(text, ends, at, row, &mut list);
    let f = year.fault;
    MonthList {
        list,
        count: year.count,
        fault: f,
    }
}

pub(crate) fn weekdays(text: &[u8], ends: &[u32], at: usize, row: &[usize]) -> DayList
    requires { Ends text.now ends.now × RowTo 34 text.now at row.now }
    ensures { DaysCollected (λ l. by_list read_nday (member_at (suc (suc l)) text.now at (ascii "byDay"))) result.weekdays result.nths result.count result.any result.fault }
{
    let mut weekdays = [0u32; 64];
    let mut nths = [0i64; 64];
    let days = day_list(text, ends, at, row, &mut weekdays, &mut nths);
    let f = days.fault;
    DayList {
        weekdays,
        nths,
        count: days.count,
        any: days.nth,
        fault: f,
    }
}
