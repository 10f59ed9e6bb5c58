// The records of an event's occurrences, written one after the other. A patch is read from the text for each occurrence
// that it changes, with a table of the ends of the text's values.
#![tactic(auto)]

use override_text::Own;

pub mod nothing;
pub mod records;
pub mod times;

// What the records of an event are made from: its own details, whether it floats, and whether the ids of its overrides increase.
#[derive(Clone, Copy)]
pub struct Form {
    pub own: Own,
    pub floating: bool,
    pub sorted: bool,
}

// What a call for the table answers: the number, and how many bytes of the buffer are the table.
#[derive(Clone, Copy)]
pub struct Done {
    pub answer: u32,
    pub length: u64,
}
