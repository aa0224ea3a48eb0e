// Terms and forms as data: numbers for factors, the order of terms, their shape.
#![tactic(auto)]

pub mod build;
pub mod factors;
pub mod order;
pub mod shape;
pub mod types;
