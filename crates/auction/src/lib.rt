// What an auction is, as definitions and theorems on plain numbers. It has no functions: the definitions stand in specs/, the theorems in proofs/.
#![tactic(auto)]
