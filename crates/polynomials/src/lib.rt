// Polynomials in lent bytes: summands, each a key and a coefficient, written, multiplied out, sorted and gathered.
#![tactic(auto)]

pub mod expansion;
mod memory;
pub mod passes;
pub mod sorting;
mod variables;
