// What every call begins with: the text judged and its head read once, and the answers 1 to 12.
#![tactic(auto)]

pub mod calls;
pub mod located;
pub mod whole;

// The lowest of 1 to 9 that applies to a text, 20 to 26 among them, and the place of its value.
#[derive(Clone, Copy)]
pub struct Refusal {
    pub answer: u32,
    pub place: usize,
}
