// Taking back dead blocks, on a script record: definitions and theorems only (specs/).
#![tactic(auto)]
