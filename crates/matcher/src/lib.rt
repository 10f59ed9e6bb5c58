// One rule, asked day by day. A rule's by-lists are marked once in a row of flags, so that a day asks a few of them; specs/Inner/Layout.antt
// says what each flag is for, and proofs/ that they say what the lists say.
#![tactic(auto)]

use rule::Frequency;

pub mod flags;
pub mod layout;
mod marks;
pub mod periods;
pub mod rows;
pub mod walk;

// What a rule has besides its by-lists.
#[derive(Clone, Copy)]
pub struct Terms {
    pub frequency: Frequency,
    pub interval: u64,
    // The first day of the week, 0 is Monday.
    pub first: u32,
    // nthOfPeriod counts in the year.
    pub inyear: bool,
    // The rule has set positions.
    pub placed: bool,
    // The number of the start's period.
    pub period: u32,
}
