// The days of an event with one rule: the start's, and those of the rule after it.
ghost use Rattle.std.specs.Prelude.{true, ◌≡◌, ◌-◌, ◌≤◌, length};
ghost use Rattle.rule.specs.declared.Frequency.TheVariants.{Monthly};
ghost use Rattle.matcher.specs.Inner.Layout.{row_size};
ghost use Rattle.track.specs.Inner.Runs.{has_day};
ghost use Rattle.listing.specs.Inner.Chunks.{Listable, Stopped};
ghost use Rattle.listing.specs.Inner.Lists.{start_or};
ghost use Rattle.listing.specs.Inner.Parts.{is_monthly, ByMonths};

use crate::days::list_days;
use matcher::Terms;
use rule::Frequency;
use track::Track;
use window::Chunk;

fn is_monthly(frequency: Frequency) -> bool
    ensures { result ≡ is_monthly frequency }
{
    matches!(frequency, Frequency::Monthly)
}

fn positions_in_months(terms: Terms) -> bool
    ensures { (result ≡ true → terms.placed ≡ true → terms.frequency ≡ Monthly) × ((terms.placed ≡ true → terms.frequency ≡ Monthly) → result ≡ true) }
{
    !terms.placed || is_monthly(terms.frequency)
}

// Months alike have the same days of the rule.
pub fn is_by_months(terms: Terms, flags: &[bool]) -> bool
    requires { length flags.now ≡ row_size }
    ensures { (result ≡ true → ByMonths terms flags.now) × (ByMonths terms flags.now → result ≡ true) }
{
    positions_in_months(terms) && track::alike::is_alike(terms, flags)
}

// The rule's days from `from` on and before `end`; the event begins not after them.
fn list_rule(
    track: Track,
    flags: &[bool],
    begin: u32,
    from: u32,
    end: u32,
    days: &mut [u32],
    at: usize,
) -> Chunk<u32>
    requires { Listable track.terms flags.now from end at (length days.old) × (begin ≤ from) }
    ensures { Stopped (has_day track flags.now begin) from end days.old at days.new result.count result.next }
{
    let to = track::ranges::earlier(end, track.last);
    if to <= from {
        return Chunk {
            count: at,
            next: end,
        };
    }
    let listed = list_days(track.terms, flags, from, to, days, at);
    if listed.next < to {
        return listed;
    }
    Chunk {
        count: listed.count,
        next: end,
    }
}

// The days from `first` on and before `end` of an event that begins on the day `begin`, up to the month that might not have room: a list of 31
// entries always gets on.
pub fn list_chunk(
    track: Track,
    flags: &[bool],
    begin: u32,
    first: u32,
    end: u32,
    days: &mut [u32],
) -> Chunk<u32>
    requires { Listable track.terms flags.now first end 1 (length days.old) }
    ensures { Stopped (start_or track flags.now begin) first end days.old 0 days.new result.count result.next }
{
    if begin < first {
        return list_rule(track, flags, begin, first, end, days, 0);
    }
    if end <= begin {
        return Chunk {
            count: 0,
            next: end,
        };
    }
    days[0] = begin;
    list_rule(track, flags, begin, begin + 1, end, days, 1)
}
