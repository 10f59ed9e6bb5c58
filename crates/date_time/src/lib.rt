// Date-times of an event: each reader is given the bytes between the quotes of a string.
#![tactic(auto)]

pub mod local;
mod parts;
mod picture;
pub mod utc;

// A LocalDateTime: its seconds from 1600-01-01T00:00:00, or the fault.
#[derive(Clone, Copy)]
pub enum DateTime {
    At(u64),
    Fault(u32),
}
