// Logs as text, read: the letters of a rule, the lines of forms and of steps, the whole text.
#![tactic(auto)]

pub mod kinds;
pub mod naming;
pub mod reading;
pub mod steps;
