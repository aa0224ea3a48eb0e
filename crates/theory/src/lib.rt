// Theorems about the definitions alone: see specs/.
#![tactic(auto)]
