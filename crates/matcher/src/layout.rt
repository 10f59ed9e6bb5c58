// The places of the flags in a rule's row, and the rows' sizes. specs/Inner/Layout.antt has the same numbers.

pub const DATES: usize = 13;

pub const DATES_BACK: usize = 45;

pub const WEEKDAYS: usize = 77;

pub const NTHS: usize = 84;

pub const NTHS_BACK: usize = 462;

// All places of all weekdays.
pub const NTHS_SIZE: u32 = 756;

pub const POSITIONS: usize = 840;

pub const POSITIONS_BACK: usize = 1207;

pub const ROW: usize = 1574;

// A list of eight rules, and both lists of an event.
pub const LIST: usize = 8 * ROW;

pub const LISTS: usize = 2 * LIST;
