// What ends a rule: `until`, `count` or nothing.
ghost use Rattle.std.specs.Prelude.{◌≡◌};
ghost use Rattle.property.specs.Inner.Rows.{RowTo};
ghost use Rattle.event.specs.Properties.{from_local};
ghost use Rattle.rule_text.specs.Inner.Parts.{EndsRead};

use crate::Ending;
use crate::numbers::count;
use date_time::DateTime;
use fault::{fault_at, join_at, lower};
use property::dates::read_until;
use property::rows::place;
use property::vocabulary::{COUNT, UNTIL};
use rule::End;

// The date-time of an `until` that was read, and its fault.
fn until_time(x: DateTime) -> u64
    ensures { result ≡ (from_local x).value }
{
    match x {
        DateTime::At(t) => t,
        DateTime::Fault(_) => 0,
    }
}

fn until_fault(x: DateTime) -> u32
    ensures { result ≡ (from_local x).fault }
{
    match x {
        DateTime::At(_) => 0,
        DateTime::Fault(n) => n,
    }
}

pub(crate) fn read_ends(text: &[u8], at: usize, row: &[usize]) -> Ending
    requires { RowTo 34 text.now at row.now }
    ensures { EndsRead text.now at result.end result.fault }
{
    match (place(text, at, row, UNTIL), place(text, at, row, COUNT)) {
        (Some(u), Some(c)) => {
            let x = fault_at(until_fault(read_until(text, u)), u);
            let y = fault_at(count(text, c).fault, c);
            Ending {
                end: End::Never,
                fault: lower(x, join_at(y, 7, at)),
            }
        }
        (None, Some(c)) => {
            let n = count(text, c);
            Ending {
                end: End::Count(n.value),
                fault: fault_at(n.fault, c),
            }
        }
        (Some(u), None) => {
            let x = read_until(text, u);
            Ending {
                end: End::Until(until_time(x)),
                fault: fault_at(until_fault(x), u),
            }
        }
        (None, None) => Ending {
            end: End::Never,
            fault: None,
        },
    }
}
