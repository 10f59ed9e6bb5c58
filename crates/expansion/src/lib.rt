// The whole call for the table of occurrences: from a text, a zone table and a window to the bytes in a lent buffer.
#![tactic(auto)]

pub mod expand;
mod table;
mod visible;
