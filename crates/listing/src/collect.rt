// Days that are written one after the other into a list.
ghost use Rattle.std.specs.Prelude.{if◌then◌else◌, ◌≡◌, ◌+◌, ◌<◌, ◌≤◌, length};
ghost use Rattle.rule.specs.Gives.{end_day};
ghost use Rattle.listing.specs.Inner.Lists.{Collected, Copied, Offsets};

use months::rows::one_more;

// Each day is written, and the place goes on only after one that is hit: no branch for the machine to guess.
pub(crate) fn collect(hits: &[bool], first: u32, days: &mut [u32], at: usize) -> usize
    requires { (first + length hits.now ≤ end_day) × ((at + length hits.now ≤ length days.old) × (length days.old < 4294967296)) }
    ensures { Collected hits.now first days.old at days.new result }
{
    let mut found: u32 = 0;
    for (k, hit) in hits.iter().enumerate() {
        days[at + found as usize] = first + k as u32;
        found = one_more(found, *hit);
    }
    at + found as usize
}

// Days that are given from 0 on, in a month that begins on the day `first`.
pub(crate) fn copy_from(list: &[u32], first: u32, days: &mut [u32], at: usize) -> usize
    requires { Offsets first list.now × (at + length list.now ≤ length days.old) }
    ensures { Copied list.now first days.old at days.new result }
{
    for (k, day) in list.iter().enumerate() {
        days[at + k] = first + *day;
    }
    at + list.len()
}
