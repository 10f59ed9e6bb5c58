// Where the values and names of a text end, in a table that is filled while the text is read and lent to the walks: they
// pass over a name or a value by one look. What the table says of a place is true or nothing, so it costs no answer: a
// value that it does not know is read.
#![tactic(auto)]

pub mod arrays;
mod keeping;
pub mod objects;
mod read;
mod reading;
mod table;
pub mod whole;
