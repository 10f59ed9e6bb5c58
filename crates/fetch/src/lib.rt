// The calls of request 3: what a sheet says as a whole, one record by its number, and a run of records.
#![tactic(auto)]

pub mod refusals;
pub mod run;
pub mod single;
pub mod summary;
