// Forms in which one vector letter stands for another form: where the letter is, and letters, factors and vector parts worked with it.
#![tactic(auto)]

pub mod occurrences;
pub mod working;
