// A multiple read ends at a broken record: definitions and theorems, no code.
#![tactic(auto)]
