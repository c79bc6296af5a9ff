// Theorems over the definitions of meaning; there is no function here.
#![tactic(auto)]
