// Member names: no two equal ones in an object, and no backslash in any, in every object of a text that is known to
// be JSON.
#![tactic(auto)]

mod duplicates;
mod faults;
mod keys;
mod names;
mod opening;
mod order;
mod radix;
mod slashes;
mod sort;
mod sorted;
pub mod whole;
