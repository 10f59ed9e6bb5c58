// Reads a sheet's bytes: whether they are accepted, how many records they have, and the numbers of each. Of the crates that read sheets only this
// one knows the layout.
#![tactic(auto)]

pub mod columns;
pub mod fields;
mod records;
pub mod refusal;
pub mod trailer;
