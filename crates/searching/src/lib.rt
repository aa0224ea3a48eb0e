// The search for a step from a form to one of fewer terms.
#![tactic(auto)]

pub mod searching;
