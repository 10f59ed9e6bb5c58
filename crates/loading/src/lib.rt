// What a call keeps of an event, from the places that its head gives: its rules, its excluded rules and its overrides.
#![tactic(auto)]

use dates::Dates;
use writer::Form;

pub mod limits;
mod lists;
mod rules;
pub mod whole;

// What a call keeps of an accepted event, beside lent slices: its dates, what its records are made from, and how many overrides it has.
#[derive(Clone, Copy)]
pub struct Kept {
    pub dates: Dates,
    pub form: Form,
    pub count: usize,
}
