// A rule over runs of days: the day that ends it, and its days marked in a run.
#![tactic(auto)]

use matcher::Terms;
use rule::Day;

mod ahead;
pub mod alike;
mod last;
pub mod leaps;
mod parts;
mod places;
pub mod plain;
pub mod ranges;
pub mod runs;
pub mod settle;
pub mod skips;
mod steps;
mod years;

// A rule that is settled for one call: what it has besides its row of flags, and the first day that is not its own any more, which its
// `count` and its `until` have become.
#[derive(Clone, Copy)]
pub struct Track {
    pub terms: Terms,
    pub last: u32,
}

// A day on the way through a rule: how many days of its period before it stay, and how many of all, where the rule has set positions.
#[derive(Clone, Copy)]
pub struct Cursor {
    pub day: Day,
    pub seen: u32,
    pub total: u32,
}

// A day on the way of a count: the days that are left from it on, and what is left of the count.
#[derive(Clone, Copy)]
pub struct Rest {
    pub day: Day,
    pub left: u32,
    pub more: u64,
}
