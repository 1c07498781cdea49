// The three demands and the accident of March, on one page: definitions and theorems, no code.
#![tactic(auto)]
