// The date-times of an event in a window: its rules, its excluded rules and its overrides over a run of days, and the next date-time in it.
#![tactic(auto)]

use track::Track;

pub mod fill;
pub mod load;
pub mod marks;

// Up to eight settled rules; the row of flags of rule i is the i-th row of a lent slice.
#[derive(Clone, Copy)]
pub struct Tracks {
    pub list: [Track; 8],
    pub count: usize,
}

// What a call keeps of an event's dates. Beside it lie, in lent slices, the rows of flags (those of the eight rules, then those of the eight
// excluded ones) and the overrides.
#[derive(Clone, Copy)]
pub struct Dates {
    pub start: u64,
    pub rules: Tracks,
    pub excluded: Tracks,
}
