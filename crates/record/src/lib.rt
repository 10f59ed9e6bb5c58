// The edges of the table of occurrences: the window that it is asked for, and the bytes of its records and its trailer.
#![tactic(auto)]

pub mod occurrences;
pub mod rows;
mod utc;
pub mod window;

// What a record says of an occurrence besides its id: when it starts, in seconds from 1600-01-01T00:00:00, the two parts of its length, its marks.
#[derive(Clone, Copy)]
pub struct Times {
    pub start: u64,
    pub days: u64,
    pub seconds: u64,
    pub busy: bool,
    pub allday: bool,
    pub floating: bool,
}
