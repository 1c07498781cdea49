// What one call after another grows from power-on: definitions and theorems, no code.
#![tactic(auto)]
