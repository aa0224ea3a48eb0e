// Gathering in lent rows: terms brought in one after the other, like ones added, zeros dropped.
#![tactic(auto)]

pub mod bringing;
