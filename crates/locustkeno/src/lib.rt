// The static library: each call that C makes, over the library of the same call, with its clauses.
#![tactic(auto)]

mod bills;
mod calls;
mod counts;
mod edits;
mod shoppers;
mod signing;
mod stages;
mod texts;
mod walks;
