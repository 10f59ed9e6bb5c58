// The faults of a rule beside those of its values.
ghost use Rattle.std.specs.Prelude.{ℕ, ◌≡◌};
ghost use Rattle.fault.specs.Fault.{first};
ghost use Rattle.property.specs.Inner.Rows.{RowTo};
ghost use Rattle.event.specs.Rules.{unsupported_lists};
ghost use Rattle.property.specs.Inner.From.{fields_in};
ghost use Rattle.rule_text.specs.Inner.Parts.{other_faults, nth_fault, joined};

use crate::members::{scale_in, skip_in, unsupported_in};
use fault::{Fault, fault_at, lower};
use property::rows::join_in;
use property::vocabulary::{BY_HOUR, BY_MINUTE, BY_SECOND, BY_WEEK_NO, BY_YEAR_DAY, RSCALE, SKIP};
use rule::Frequency;

fn unsupported_lists(text: &[u8], at: usize, row: &[usize]) -> Option<Fault>
    requires { RowTo 34 text.now at row.now }
    ensures { (l : ℕ) → result ≡ first (unsupported_lists (fields_in l text.now at)) }
{
    let second = unsupported_in(text, at, row, BY_SECOND, None);
    let minute = unsupported_in(text, at, row, BY_MINUTE, second);
    let hour = unsupported_in(text, at, row, BY_HOUR, minute);
    let week = unsupported_in(text, at, row, BY_WEEK_NO, hour);
    unsupported_in(text, at, row, BY_YEAR_DAY, week)
}

pub(crate) fn other_fault(text: &[u8], at: usize, row: &[usize]) -> Option<Fault>
    requires { RowTo 34 text.now at row.now }
    ensures { (l : ℕ) → result ≡ first (other_faults l text.now at) }
{
    let lists = unsupported_lists(text, at, row);
    let skip = join_in(text, at, row, SKIP, skip_in(text, at, row), lists);
    join_in(text, at, row, RSCALE, scale_in(text, at, row), skip)
}

// An nthOfPeriod under weekly or daily, in the rule at a place.
#[tactic(auto, unfolding(fault::specs::Fault::faults_at, fault::specs::Fault::first, fault::specs::Fault::lower))]
pub(crate) fn nth_fault(at: usize, frequency: Frequency, any: bool) -> Option<Fault>
    ensures { result ≡ nth_fault at frequency any }
{
    if !any {
        return None;
    }
    match frequency {
        Frequency::Daily => fault_at(7, at),
        Frequency::Weekly => fault_at(7, at),
        Frequency::Monthly => None,
        Frequency::Yearly => None,
    }
}

// The faults of the parts of a rule, joined.
pub(crate) fn join(
    head: Option<Fault>,
    days: Option<Fault>,
    dates: Option<Fault>,
    months: Option<Fault>,
    positions: Option<Fault>,
    ends: Option<Fault>,
    nth: Option<Fault>,
    other: Option<Fault>,
) -> Option<Fault>
    ensures { result ≡ joined head days dates months positions ends nth other }
{
    let last = lower(ends, lower(nth, other));
    let lists = lower(dates, lower(months, lower(positions, last)));
    lower(head, lower(days, lists))
}
