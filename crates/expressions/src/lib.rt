// Expressions: read as trees, operands left to right, and worked into forms on the way.
#![tactic(auto)]

pub mod tokens;
pub mod trees;
