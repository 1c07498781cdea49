// Every command ends by itself, in time: definitions and theorems, no code.
#![tactic(auto)]
