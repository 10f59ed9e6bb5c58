// The functions of the library `smocurant` for callers in C: each calls the function of its name, and makes its promise again.
#![tactic(auto)]

mod by_entries;
mod by_numbers;
mod occurrence_texts;
mod places;
mod sheets;
mod upload_weeks;
