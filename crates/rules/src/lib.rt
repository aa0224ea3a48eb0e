// Steps by the five rules.
#![tactic(auto)]

pub mod admissible;
pub mod steps;
