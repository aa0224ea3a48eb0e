// Term records read at a position of any bytes.
#![tactic(auto)]

pub mod read;
