// What is read and signed is what runs: theorems over the exported calls, no code of its own.
#![tactic(auto)]
