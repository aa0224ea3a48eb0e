// Logs between the rules and whoever reads, checks or writes them: steps with their count, a log read, the letters of its steps, a log written.
#![tactic(auto)]

pub mod reading;
pub mod steps;
pub mod writing;
