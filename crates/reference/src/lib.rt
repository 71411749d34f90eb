// No code: the cases that are proved over the definitions, in one table (proofs/Starred.antt).
#![tactic(auto)]
