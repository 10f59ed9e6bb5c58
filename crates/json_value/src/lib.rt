// Values of a JSON text: their grammar, and the readers of what stands between them.
#![tactic(auto)]

pub mod items;

// How many levels of arrays and objects a text may open.
pub const LEVELS: usize = 16;

// What stands after an opening bracket, or after an item: another item at a place, or the closing bracket with the
// place after it.
#[derive(Clone, Copy)]
pub enum Item {
    More(usize),
    Done(usize),
}
