// Demand 2 as a host sees it, bytes loaded and bytes read: definitions and theorems, no code.
#![tactic(auto)]
