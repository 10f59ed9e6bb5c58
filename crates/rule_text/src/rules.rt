// A whole rule, and a list of rules.
ghost use Rattle.std.specs.Prelude.{ℕ, suc, ◌<◌, ◌≡◌, length};
ghost use Rattle.fault.specs.Fault.{first};
ghost use Rattle.json_ends.specs.Inner.Ends.{Ends};
ghost use Rattle.json_tree.specs.Tree.{tree_at};
ghost use Rattle.property.specs.Inner.Rows.{RowTo};
ghost use Rattle.rule.specs.Inner.Read.{written};
ghost use Rattle.event.specs.Rules.{stand_in, read_rule, read_rules};
ghost use Rattle.rule_text.specs.Inner.Reads.{entries_at};
ghost use Rattle.rule_text.specs.Inner.Parts.{RuleIn, RuleRead};
ghost use Rattle.rule_text.specs.Inner.Places.{Tally, rules_fault};

use crate::collected::{months, numbers, weekdays};
use crate::ends::read_ends;
use crate::heads::read_head;
use crate::others::{join, nth_fault, other_fault};
use crate::{Listed, Read};
use fault::{Fault, fault_at, join_at, lower};
use json_ends::arrays::{first_element, next_element};
use json_text::bytes::byte;
use property::rows::fill;
use property::vocabulary::{BY_MONTH_DAY, BY_SET_POSITION};
use rule::{End, Frequency, Rule};

// Stands in for a rule that is no object.
fn stand_in() -> Rule
    ensures { written result ≡ stand_in }
{
    Rule {
        frequency: Frequency::Yearly,
        interval: 1,
        first: 0,
        weekdays: [0u32; 64],
        nths: [0i64; 64],
        days: 0,
        dates: [0i64; 64],
        datecount: 0,
        months: [0u32; 64],
        monthcount: 0,
        positions: [0i64; 64],
        positioncount: 0,
        end: End::Never,
    }
}

// The rule whose members are those of the object at a place, with the row of its members.
fn rule_by(text: &[u8], ends: &[u32], at: usize, row: &[usize]) -> Read
    requires { Ends text.now ends.now × RowTo 34 text.now at row.now }
    ensures { RuleIn text.now at result.rule result.fault }
{
    let head = read_head(text, at, row);
    let days = weekdays(text, ends, at, row);
    let dates = numbers(text, ends, at, row, BY_MONTH_DAY, 31);
    let year = months(text, ends, at, row);
    let positions = numbers(text, ends, at, row, BY_SET_POSITION, 366);
    let ending = read_ends(text, at, row);
    let frequency = head.frequency;
    let nth = nth_fault(at, frequency, days.any);
    let other = other_fault(text, at, row);
    let h = head.fault;
    let d = days.fault;
    let m = dates.fault;
    let y = year.fault;
    let p = positions.fault;
    let e = ending.fault;
    let fault = join(h, d, m, y, p, e, nth, other);
    let named = days.weekdays;
    let nths = days.nths;
    let datelist = dates.list;
    let monthlist = year.list;
    let positionlist = positions.list;
    let end = ending.end;
    let rule = Rule {
        frequency,
        interval: head.interval,
        first: head.first,
        weekdays: named,
        nths,
        days: days.count,
        dates: datelist,
        datecount: dates.count,
        months: monthlist,
        monthcount: year.count,
        positions: positionlist,
        positioncount: positions.count,
        end,
    };
    Read { rule, fault }
}

// The rule whose members are those of the object at a place.
fn rule_in(text: &[u8], ends: &[u32], at: usize) -> Read
    requires { Ends text.now ends.now }
    ensures { RuleIn text.now at result.rule result.fault }
{
    let mut row = [0usize; 34];
    fill(text, ends, at, &mut row);
    rule_by(text, ends, at, &row)
}

// The rule at a place.
pub fn read_rule(text: &[u8], ends: &[u32], at: usize) -> Read
    requires { Ends text.now ends.now }
    ensures { RuleRead text.now at result.rule result.fault }
{
    if byte(text, at) != 0x7B {
        return Read {
            rule: stand_in(),
            fault: fault_at(20, at),
        };
    }
    rule_in(text, ends, at)
}

// All rules of the array at a place: how many, and the fault that decides in them.
fn rule_entries(text: &[u8], ends: &[u32], at: usize) -> Listed
    requires { (at < length text.now) × Ends text.now ends.now }
    ensures { Tally (λ l. entries_at read_rule (suc (suc (suc l))) text.now at) result.count result.fault }
{
    let mut step = first_element(text, ends, at);
    let mut fault = None;
    for count in 0..text.len() {
        let Some(e) = step else {
            return Listed { count, fault };
        };
        let one = read_rule(text, ends, e.value);
        fault = lower(fault, one.fault);
        step = next_element(text, ends, e.after);
    }
    Listed {
        count: text.len(),
        fault,
    }
}

// The fault of a list with so many rules at a place, of whose rules' own the one that decides is given.
#[tactic(auto, unfolding(crate::specs::Inner::Places::rules_fault, fault::specs::Fault::faults_at, fault::specs::Fault::first, fault::specs::Fault::lower))]
fn limit(count: usize, at: usize, fault: Option<Fault>) -> Option<Fault>
    ensures { result ≡ rules_fault count at fault }
{
    if 8 < count {
        return join_at(fault, 9, at);
    }
    fault
}

// The fault of a list of rules.
pub fn rules_fault(text: &[u8], ends: &[u32], at: usize) -> Option<Fault>
    requires { Ends text.now ends.now }
    ensures { (l : ℕ) → result ≡ first (read_rules (tree_at (suc (suc (suc (suc l)))) text.now at)).faults }
{
    if byte(text, at) != 0x5B {
        return fault_at(20, at);
    }
    let all = rule_entries(text, ends, at);
    let f = all.fault;
    limit(all.count, at, f)
}
