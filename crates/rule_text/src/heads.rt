// A rule's type, frequency, interval and first day of the week.
ghost use Rattle.std.specs.Prelude.{◌≡◌};
ghost use Rattle.property.specs.Inner.Rows.{RowTo};
ghost use Rattle.event.specs.Rules.{from_rate};
ghost use Rattle.rule_text.specs.Inner.Parts.{HeadRead};

use crate::members::{first_in, frequency_in, interval_in, type_in};
use crate::spelled::{fault_of, number_of};
use crate::{Head, Object};
use keywords::Rate;
use property::rows::{fault_in, join_in};
use property::vocabulary::{FIRST_DAY, FREQUENCY, INTERVAL, TYPE};
use rule::Frequency;

fn frequency_of(x: Rate) -> Frequency
    ensures { result ≡ (from_rate x).value }
{
    match x {
        Rate::Daily => Frequency::Daily,
        Rate::Weekly => Frequency::Weekly,
        Rate::Monthly => Frequency::Monthly,
        Rate::Yearly => Frequency::Yearly,
        Rate::Fault(_) => Frequency::Yearly,
    }
}

fn rate_fault(x: Rate) -> u32
    ensures { result ≡ (from_rate x).fault }
{
    match x {
        Rate::Daily => 0,
        Rate::Weekly => 0,
        Rate::Monthly => 0,
        Rate::Yearly => 0,
        Rate::Fault(n) => n,
    }
}

pub(crate) fn read_head(text: &[u8], at: usize, row: &[usize]) -> Head
    requires { RowTo 34 text.now at row.now }
    ensures { HeadRead text.now at result.frequency result.interval result.first result.fault }
{
    let rate = frequency_in(text, at, row);
    let interval = interval_in(text, at, row);
    let first = first_in(text, at, row);
    let kind = type_in(text, at, row, Object::Rule);
    let week = fault_in(text, at, row, FIRST_DAY, fault_of(first));
    let step = join_in(text, at, row, INTERVAL, interval.fault, week);
    let often = join_in(text, at, row, FREQUENCY, rate_fault(rate), step);
    Head {
        frequency: frequency_of(rate),
        interval: interval.value,
        first: number_of(first),
        fault: join_in(text, at, row, TYPE, kind, often),
    }
}
