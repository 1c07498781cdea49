// Sessions and scenes that meet the premises of demands 2 and 3, and what the demands say of them: theorems, no code.
#![tactic(auto)]
