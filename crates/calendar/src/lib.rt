// The Gregorian calendar's functions: dates, day numbers counted from 1600-01-01, weekdays, and signed local seconds as a day and a second of
// the day. What they compute is defined in the crate `gregorian`.
#![tactic(auto)]

pub mod days;
pub mod month;
pub mod seconds;
pub mod year;
