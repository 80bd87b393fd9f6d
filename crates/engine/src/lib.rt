// Theorems about the calls on a script record: this crate has no code of its own.
#![tactic(auto)]
