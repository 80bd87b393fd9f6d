// Theorems about the calls of the library as a program makes them: this crate has no code of its own.
#![tactic(auto)]
