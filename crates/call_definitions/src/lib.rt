// The whole calls: definitions of the table of occurrences, of its answer and of the texts (specs/), and the three demands on them as
// theorems (proofs/).
#![tactic(auto)]
