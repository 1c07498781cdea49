// Demand 1, safe on every input: definitions and theorems, no code.
#![tactic(auto)]
