// How many settings list a slot: definitions and theorems, no code of its own.
#![tactic(auto)]
