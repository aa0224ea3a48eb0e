// Pairs of terms: what their two vector parts make, and whether any of it stays.
#![tactic(auto)]

pub mod parts;
pub mod staying;
