// The days of a rule in a run of days, listed a month at a time.
ghost use Rattle.std.specs.Prelude.{length};
ghost use Rattle.matcher.specs.Inner.Walk.{picks_on_by};
ghost use Rattle.listing.specs.Inner.Chunks.{Listable, Stopped};

use crate::parts::list_part;
use matcher::Terms;
use months::layout::{ANSWERS, KINDS};
use window::Chunk;

// The days from `first` on and before `end`, after the first entries of the list, up to the month that might not have room.
pub(crate) fn list_days(
    terms: Terms,
    flags: &[bool],
    first: u32,
    end: u32,
    days: &mut [u32],
    at: usize,
) -> Chunk<u32>
    requires { Listable terms flags.now first end at (length days.old) }
    ensures { Stopped (picks_on_by terms flags.now) first end days.old at days.new result.count result.next }
{
    let mut rows = [false; ANSWERS];
    let mut lists = [0u32; KINDS];
    let mut x = rule::days::day_of(first);
    let mut count = at;
    let mut day = first;
    while day < end {
        let here = x;
        let out = track::skips::skip(terms, flags, here);
        if 0 < out {
            if end <= day + out {
                return Chunk { count, next: end };
            }
            day += out;
            x = track::leaps::days_later(here, out);
        } else {
            if days.len() < count + 31 {
                return Chunk { count, next: day };
            }
            let part = track::plain::month_part(here, (end - day) as usize);
            count = list_part(terms, flags, &mut rows, &mut lists, here, part, days, count);
            if end <= day + part as u32 {
                return Chunk { count, next: end };
            }
            day += part as u32;
            x = track::leaps::days_later(here, part as u32);
        }
    }
    Chunk { count, next: end }
}
