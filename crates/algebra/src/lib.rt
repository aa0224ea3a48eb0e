// General mathematics alone: see specs/.
#![tactic(auto)]
