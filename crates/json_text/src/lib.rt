// The leaves of a JSON text: bytes, UTF-8, strings, numbers, white space and literal names. Each reader starts at
// a place of the text and answers where what it read ends, or why it does not. Nothing is copied and no table is kept.
#![tactic(auto)]

pub mod bytes;
pub mod numbers;
mod plain;
pub mod strings;
mod utf8;
pub mod words;

// Why a reader gives no place after what it read: the text is not JSON there; or it opens a level too many, which
// only values can.
#[derive(Clone, Copy, PartialEq, Eq)]
pub enum SyntaxError {
    Malformed,
    TooDeep,
}
