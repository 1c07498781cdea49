// A controller under any host, from an accepted command on: definitions and theorems, no code.
#![tactic(auto)]
