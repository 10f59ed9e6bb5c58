// `recurrenceOverrides`, read at the place where it stands in a text that is known to be JSON. The text is the store: a patch is its place.
// The readers are lent a table of the ends of the text's values, by which they pass over what they do not read.
#![tactic(auto)]

pub mod entries;
mod judged;
pub mod lists;
mod names;
mod patched;
pub mod patches;
pub mod readings;

// The event's own details, which a patch changes. Date-times are seconds from 1600-01-01T00:00:00; a text is the place of its opening quote.
#[derive(Clone, Copy)]
pub struct Own {
    pub start: u64,
    pub days: u64,
    pub seconds: u64,
    pub busy: bool,
    pub allday: bool,
    pub title: Option<usize>,
    pub description: Option<usize>,
}

// An occurrence after its patch.
#[derive(Clone, Copy)]
pub struct Patch {
    pub excluded: bool,
    pub start: u64,
    pub days: u64,
    pub seconds: u64,
    pub busy: bool,
    pub allday: bool,
    pub title: Option<usize>,
    pub description: Option<usize>,
}

// Single properties, each with its fault: a date-time, a length, a mark, a text.
#[derive(Clone, Copy)]
pub struct When {
    pub value: u64,
    pub fault: u32,
}

#[derive(Clone, Copy)]
pub struct Lasting {
    pub days: u64,
    pub seconds: u64,
    pub fault: u32,
}

#[derive(Clone, Copy)]
pub struct Mark {
    pub value: bool,
    pub fault: u32,
}

#[derive(Clone, Copy)]
pub struct Shown {
    pub place: Option<usize>,
    pub fault: u32,
}
