//! Tests of specifications, the key space and scenarios: rows of texts, and that each call finds memory.
//!
//! A crate with tests is proved once more with them, so they stand here and not in the crates that they test.
#![tactic(auto)]

#[cfg(test)]
mod client_tests;
#[cfg(test)]
mod converge_tests;
#[cfg(test)]
mod fields_tests;
#[cfg(test)]
mod keyspace_tests;
#[cfg(test)]
mod links_tests;
#[cfg(test)]
mod print_tests;
#[cfg(test)]
mod registry_tests;
#[cfg(test)]
mod scenario_tests;
#[cfg(test)]
mod spec_tests;
