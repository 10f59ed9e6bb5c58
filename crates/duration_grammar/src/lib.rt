// The grammar of a duration, source document 004: which strings are durations. Each rule starts at a place of the text and answers where what
// it read ends.
#![tactic(auto)]

pub mod grammar;
pub mod letter;
