// Why a sheet is refused; the number of each is the one that callers get.

#[derive(Clone, Copy)]
pub enum Refusal {
    TooShort = 34,
    UnknownVersion = 35,
    RecordSize = 36,
    Distance = 37,
    Order = 38,
    Marks = 39,
    Zeros = 40,
}
