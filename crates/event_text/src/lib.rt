// The event of a text that is past answers 1 to 4: what stands in its own members, and the fault that decides.
// One walk over the members finds all that are read; a table of the ends of the text's values keeps it short.
#![tactic(auto)]

pub mod heads;
mod judged;
mod marks;
mod own;
mod spots;
mod times;
pub mod whole;

use fault::Fault;
use keywords::Privacy;

// Who may see the event, as it was read, with its fault, 0 where there is none. Moments, lengths, marks and strings are those of `override_text`.
#[derive(Clone, Copy)]
pub struct Access {
    pub privacy: Privacy,
    pub fault: u32,
}

// What an occurrence has of its own, with the fault of it that decides. Texts are places of opening quotes.
#[derive(Clone, Copy)]
pub struct Details {
    pub start: u64,
    pub days: u64,
    pub seconds: u64,
    pub busy: bool,
    pub allday: bool,
    pub title: Option<usize>,
    pub description: Option<usize>,
    pub fault: Option<Fault>,
}

// An event but for its lists, of which it has the places, with the fault of it that decides.
#[derive(Clone, Copy)]
pub struct Head {
    pub zone: Option<usize>,
    pub privacy: Privacy,
    pub start: u64,
    pub days: u64,
    pub seconds: u64,
    pub busy: bool,
    pub allday: bool,
    pub title: Option<usize>,
    pub description: Option<usize>,
    pub rules: Option<usize>,
    pub excluded: Option<usize>,
    pub overrides: Option<usize>,
    pub fault: Option<Fault>,
}
