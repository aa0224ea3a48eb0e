// Picks: the letters that a rule takes out of a term, by masks over its factors and over the letters themselves.
#![tactic(auto)]

pub mod choosing;
