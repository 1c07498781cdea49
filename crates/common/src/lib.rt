// No code: definitions that several crates share stand in specs/, and the lemmas that all proofs share in proofs/.
#![tactic(auto)]
