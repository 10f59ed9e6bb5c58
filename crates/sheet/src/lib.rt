// Definitions and laws only: what a sheet's bytes say. The crate `sheet_reader` has the functions.
#![tactic(auto)]
