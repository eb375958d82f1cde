// The acceptance sheet as theorems: no function, only laws, in proofs/.
#![tactic(auto)]
