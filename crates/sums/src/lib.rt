// Sums of forms in lent rows, and what was gathered closed to a form.
#![tactic(auto)]

pub mod adding;
pub mod results;
