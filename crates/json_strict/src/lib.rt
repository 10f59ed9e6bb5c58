// The strict reader: judges a text by answers 1 to 4.
#![tactic(auto)]

pub mod answer;
mod slashes;
mod surrogates;
