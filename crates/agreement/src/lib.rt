// The viewer and the controller agree: definitions and theorems, no code.
#![tactic(auto)]
