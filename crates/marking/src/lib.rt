// Marks of letters, factors and terms, and of the rows of a rule.
#![tactic(auto)]

pub mod marking;
pub mod products;
