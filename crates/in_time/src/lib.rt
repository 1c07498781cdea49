// Demand 3, in time: definitions and theorems, no code.
#![tactic(auto)]
