// Rules of recurrence, read at the place where they stand in a text that is known to be JSON. The text is the store: a value is its
// place, and its meaning is the tree's value there.
#![tactic(auto)]

mod collected;
mod days;
mod ends;
mod entries;
mod heads;
mod lists;
mod members;
mod numbers;
mod others;
pub mod places;
pub mod rules;
mod spelled;

// The objects of a list of rules: a rule, and an entry of byDay. Each says in its `@type` which it is.
#[derive(Clone, Copy)]
pub enum Object {
    Rule,
    Day,
}

// A count that was read, and the number of its fault.
#[derive(Clone, Copy)]
pub struct Number {
    pub value: u64,
    pub fault: u32,
}

// A signed number that was read, and the number of its fault.
#[derive(Clone, Copy)]
pub struct Signed {
    pub value: i64,
    pub fault: u32,
}

// An entry of byDay that was read: its weekday, its nthOfPeriod, 0 where it has none, and the fault that decides.
#[derive(Clone, Copy)]
pub struct DayRead {
    pub weekday: u32,
    pub nth: i64,
    pub fault: Option<fault::Fault>,
}

// How many entries a list has, and the fault that decides in it.
#[derive(Clone, Copy)]
pub struct Listed {
    pub count: usize,
    pub fault: Option<fault::Fault>,
}

// The same of byDay, and whether some entry has an nthOfPeriod.
#[derive(Clone, Copy)]
pub struct DaysListed {
    pub count: usize,
    pub nth: bool,
    pub fault: Option<fault::Fault>,
}

// Where a by-list stands: none may be written, or a value that is no array, whose place is given too.
#[derive(Clone, Copy)]
pub enum Place {
    At(usize),
    Absent,
    Wrong(usize),
}

// A by-list that was read: its entries are the first of the array.
#[derive(Clone, Copy)]
pub struct NumberList {
    pub list: [i64; 64],
    pub count: usize,
    pub fault: Option<fault::Fault>,
}

#[derive(Clone, Copy)]
pub struct MonthList {
    pub list: [u32; 64],
    pub count: usize,
    pub fault: Option<fault::Fault>,
}

// byDay: weekdays and beside each its nthOfPeriod, and whether some entry has one.
#[derive(Clone, Copy)]
pub struct DayList {
    pub weekdays: [u32; 64],
    pub nths: [i64; 64],
    pub count: usize,
    pub any: bool,
    pub fault: Option<fault::Fault>,
}

// The first members of a rule, and the fault that decides in them.
#[derive(Clone, Copy)]
pub struct Head {
    pub frequency: rule::Frequency,
    pub interval: u64,
    pub first: u32,
    pub fault: Option<fault::Fault>,
}

// What ends a rule, and its fault.
#[derive(Clone, Copy)]
pub struct Ending {
    pub end: rule::End,
    pub fault: Option<fault::Fault>,
}

// A rule that was read, and its fault. Where it has one the rule does not matter.
#[derive(Clone, Copy)]
pub struct Read {
    pub rule: rule::Rule,
    pub fault: Option<fault::Fault>,
}
