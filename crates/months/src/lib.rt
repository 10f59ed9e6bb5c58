// What a month has of a rule, by its length and the weekday of its first day: months alike have the same days.
#![tactic(auto)]

pub mod kinds;
pub mod layout;
pub mod rows;
mod week;
