// Demand 2, what was written reads back: definitions and theorems, no code.
#![tactic(auto)]
