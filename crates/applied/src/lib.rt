// What the three demands and the accident of March come to on given machines and tracks: definitions and theorems, no code.
#![tactic(auto)]
