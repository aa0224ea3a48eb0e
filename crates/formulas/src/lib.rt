// Formulas as text: read by levels and worked on the way in lent rows. What reading refuses comes before what working refuses, each with its column.
#![tactic(auto)]

pub mod atoms;
pub mod joining;
pub mod reading;
