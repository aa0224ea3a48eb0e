// The difference of two forms by components, and numbers for the variables under which a component is not 0.
#![tactic(auto)]

pub mod components;
pub mod elimination;
