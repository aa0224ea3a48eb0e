// Lines of a text and the words in them.
#![tactic(auto)]

pub mod places;
pub mod words;
