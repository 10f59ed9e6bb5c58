// The weeks of an upload log: reported, shut or missing. Time grows with the log, the records and the weeks, and not with their product: each span's
// end goes to the place of its first week, one sweep carries the farthest of them along, and each upload is counted in the place of its week.
#![tactic(auto)]

pub mod call;
mod instants;
mod places;
mod refusals;
mod spans;
mod sweeping;
mod tallies;
mod uploads;
