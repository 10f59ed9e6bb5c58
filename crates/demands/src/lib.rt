// The mission's three demands as statements about what a call hands back (specs/), proved for every call that keeps its contract (proofs/).
#![tactic(auto)]
