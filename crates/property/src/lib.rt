// The properties of an event, read at the place where their value stands in a text that is known to be JSON. The text is
// the store: a value is its place, and its meaning is the tree's value there.
#![tactic(auto)]

pub mod dates;
pub mod lengths;
pub mod marks;
pub mod members;
pub mod names;
pub mod nulls;
pub mod rows;
pub mod strings;
pub mod texts;
pub mod vocabulary;

// A boolean, or the fault.
#[derive(Clone, Copy)]
pub enum Flag {
    Is(bool),
    Fault(u32),
}

// Who may see an event, or the fault.
#[derive(Clone, Copy)]
pub enum Setting {
    Is(keywords::Privacy),
    Fault(u32),
}

// A time zone: none, or the place of its name, that is of the opening quote; or the fault.
#[derive(Clone, Copy)]
pub enum Zone {
    Floating,
    Named(usize),
    Fault(u32),
}

// A text by its place, that is of the opening quote; or the fault.
#[derive(Clone, Copy)]
pub enum Passage {
    At(usize),
    Fault(u32),
}
