// The duration of an event: how long it is. The reader is given the bytes between the quotes of a string.
#![tactic(auto)]

mod amount;
pub mod length;

// The days and, apart from them, the seconds of a duration; or the fault.
#[derive(Clone, Copy)]
pub enum Span {
    Of(u64, u64),
    Fault(u32),
}
