// What a walk through a text that is known to be JSON meets, by place: the members of an object, the elements of an array, the bytes
// of a string. The walks themselves go with a table of ends (`json_ends`).
#![tactic(auto)]

pub mod strings;

// A member of an object: the place of its name, that is of the opening quote; the place after the closing quote; the
// place of the value; and the place after the value.
#[derive(Clone, Copy)]
pub struct Member {
    pub name: usize,
    pub stop: usize,
    pub value: usize,
    pub after: usize,
}

// An element of an array: the place of the value, and the place after it.
#[derive(Clone, Copy)]
pub struct Element {
    pub value: usize,
    pub after: usize,
}
