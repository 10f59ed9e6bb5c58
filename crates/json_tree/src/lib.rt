// What the layers above read of a value: its kind, its members by name, its integer, its raw bytes.
#![tactic(auto)]

pub mod finds;
pub mod integers;
pub mod kinds;
pub mod raws;

// The kind of a value.
#[derive(Clone, Copy)]
pub enum Kind {
    Null,
    False,
    True,
    Number,
    String,
    Array,
    Object,
}

// An integer: is it below zero, and its size.
#[derive(Clone, Copy)]
pub struct Integer {
    pub negative: bool,
    pub size: u64,
}
