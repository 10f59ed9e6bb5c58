// The date-times of an event in a stretch of time: the next one in a run of days, and those of a run collected.
#![tactic(auto)]

pub mod chunks;
pub mod collect;
pub mod next;
pub mod sorted;

// What was found of a window's ids, or of its days: how many stand in the lent slice, and the second, or the day, from which on to ask for more.
#[derive(Clone, Copy)]
pub struct Chunk<T = u64> {
    pub count: usize,
    pub next: T,
}

// The window of a call, in seconds from 1600: the first is in it, the second is not.
#[derive(Clone, Copy)]
pub struct Window {
    pub from: u64,
    pub to: u64,
}
