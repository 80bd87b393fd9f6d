// What lk_settings counts is what lk_run leaves: theorems over the exported calls, no code of its own.
#![tactic(auto)]
