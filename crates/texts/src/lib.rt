// The texts of one occurrence, its title and its description, as parts of the event's text.
#![tactic(auto)]

mod answered;
pub mod calls;
mod events;
mod parts;
mod patched;
mod visible;

// A part of the event's text: the place of its first byte and how many bytes it has; both 0 where it has none.
#[derive(Clone, Copy)]
pub struct Part {
    pub start: usize,
    pub length: usize,
}

// What a call answers: the number, and the part that is shown; both 0 where it has no bytes.
#[derive(Clone, Copy)]
pub struct Told {
    pub answer: u32,
    pub start: usize,
    pub length: usize,
}
