// Theorems about small moves over the calls of the library: this crate has no code of its own.
#![tactic(auto)]
