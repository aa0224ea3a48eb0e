// Definitions alone: see specs/.
#![tactic(auto)]
