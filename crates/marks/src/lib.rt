// Steps by the marks of terms, by which most candidates for a shortening step are ruled out before anything is multiplied out.
#![tactic(auto)]

pub mod steps;
