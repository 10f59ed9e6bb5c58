// Definitions and theorems only: which weeks were reported, shut or missing. The crate `replay` has the functions.
#![tactic(auto)]
