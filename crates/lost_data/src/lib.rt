// Lost Data, under every host: definitions and theorems, no code.
#![tactic(auto)]
