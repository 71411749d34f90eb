// Mathematics that belongs to no one function: its theorems stand in specs/.
#![tactic(auto)]
