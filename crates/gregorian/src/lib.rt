// The Gregorian calendar from 1600-01-01 to 9999-12-31: its definitions (specs/), the theorems about them (proofs/), and the values that
// they speak of. The functions are in the crate `calendar`, so that an edit of a function proves no theorem again.
#![tactic(auto)]

// A date: month 1 to 12, day of the month from 1.
#[derive(Clone, Copy)]
pub struct Date {
    pub year: u32,
    pub month: u32,
    pub day: u32,
}

// A day number, counted from 1600-01-01, and the second of that day.
#[derive(Clone, Copy)]
pub struct Moment {
    pub day: u32,
    pub second: u32,
}
