// The event's own details.
ghost use Rattle.std.specs.Prelude.{ℕ, ◌≡◌};
ghost use Rattle.event.specs.Event.{details_in};
ghost use Rattle.event.specs.Inner.Decided.{decided};
ghost use Rattle.property.specs.Inner.From.{fields_in};
ghost use Rattle.property.specs.Inner.Rows.{RowTo};
ghost use Rattle.event_text.specs.Inner.Held.{from_details};

use crate::Details;
use crate::marks::{all_day, busy};
use crate::spots::words;
use crate::times::{length, start};
use fault::lower;
use property::rows::fault_in;
use property::vocabulary::{ALL_DAY, DESCRIPTION, DURATION, START, STATUS, TITLE};

pub(crate) fn own_details(text: &[u8], at: usize, row: &[usize]) -> Details
    requires { RowTo 18 text.now at row.now }
    ensures { (l : ℕ) → from_details text.now result ≡ decided (details_in at (fields_in l text.now at)) }
{
    let start = start(text, at, row);
    let length = length(text, at, row);
    let busy = busy(text, at, row);
    let allday = all_day(text, at, row);
    let title = words(text, at, row, TITLE);
    let description = words(text, at, row, DESCRIPTION);
    let first = fault_in(text, at, row, START, start.fault);
    let second = fault_in(text, at, row, DURATION, length.fault);
    let third = fault_in(text, at, row, STATUS, busy.fault);
    let fourth = fault_in(text, at, row, ALL_DAY, allday.fault);
    let fifth = fault_in(text, at, row, TITLE, title.fault);
    let sixth = fault_in(text, at, row, DESCRIPTION, description.fault);
    let texts = lower(fifth, sixth);
    let marks = lower(third, lower(fourth, texts));
    let fault = lower(first, lower(second, marks));
    Details {
        start: start.value,
        days: length.days,
        seconds: length.seconds,
        busy: busy.value,
        allday: allday.value,
        title: title.place,
        description: description.place,
        fault,
    }
}
