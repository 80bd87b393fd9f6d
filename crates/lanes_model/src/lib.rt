// One walk for many saves: definitions and theorems only (specs/).
#![tactic(auto)]
