// Taking back dead blocks, on trees: definitions and theorems only (specs/).
#![tactic(auto)]
