// The places in the list of answers that a run keeps. specs/Inner/Layout.antt has the same numbers.

// The last place of a kind's row says whether it is written.
pub const LAST: usize = 31;

// The rows of the 28 kinds of months. The week follows them.
pub const KINDS: usize = 896;

pub const WEEK: usize = 38;

// Whether the week is written, and whether no weekday is asked for by its place.
pub const READY: usize = 958;

pub const PLAIN: usize = 959;

// The whole list.
pub const ANSWERS: usize = 960;
