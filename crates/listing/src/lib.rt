// The days of an event with one rule as a list: where they are few, nothing goes by the days between.
#![tactic(auto)]

mod collect;
mod days;
mod kinds;
mod parts;
pub mod whole;
