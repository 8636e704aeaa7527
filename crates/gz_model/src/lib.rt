//! Words on lists, numbers and told bytes that the contracts of several crates cite.
//! It has definitions and laws alone, and no code.
#![tactic(auto)]
