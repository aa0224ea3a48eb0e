// The products of forms in lent rows: times, dot, wedge and triple, each with its refusals.
#![tactic(auto)]

pub mod products;
