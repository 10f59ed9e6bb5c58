// The calls of the ingest service, as a library. `smocurant_c` exports them.
#![tactic(auto)]

pub mod by_entries;
pub mod by_numbers;
pub mod occurrence_texts;
pub mod places;
pub mod sheets;
pub mod upload_weeks;
