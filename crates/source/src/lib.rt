// The ids of a window, a chunk at a time; how many there are, and whether a table of them fits.
#![tactic(auto)]

pub mod counting;
mod listed;
mod marked;
pub mod single;
pub mod whole;

// So many days are listed or marked at once.
pub(crate) const DAYS: usize = 1024;

// Room for their ids and those of 256 overrides: a chunk of days that is marked is never cut.
pub const CHUNK: usize = 1280;
