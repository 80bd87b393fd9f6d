// Which slots are read back as they run, and what is told of a slot before it is signed: definitions and theorems about them, no code.
#![tactic(auto)]
