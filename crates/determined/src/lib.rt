// Each input has one answer: definitions and theorems, no code.
#![tactic(auto)]
