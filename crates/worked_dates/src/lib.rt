// 01's worked dates with a star (specs/Inner/Cases, proofs/Starred) and the worked ends of request 2 (specs/Inner/Ends, proofs/Ends): two lists of
// cases with one statement each (specs/Inner/Worked), computed by the checker from the candidates for ids (`recurrence` Inner/Candidates).
#![tactic(auto)]
