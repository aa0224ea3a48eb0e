// Candidates for a step to fewer terms: each takes one standing term away exactly.
#![tactic(auto)]

pub mod trying;
