// The text of a log, in lent bytes.
#![tactic(auto)]

pub mod lines;
