// The text of a shop read back: definitions and theorems only (specs/).
#![tactic(auto)]
