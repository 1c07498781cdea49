// What a Read Sector shows of the data mark that it met: definitions and theorems, no code.
#![tactic(auto)]
