// What a caller knows of its calls, and the host that any number of them are: definitions and theorems, no code.
#![tactic(auto)]
