//! Tests of applications, recovery logs, runs and commands: texts as they are written, and that each call finds memory.
//!
//! A crate with tests is proved once more with them, so they stand here and not in the crates that they test.
#![tactic(auto)]

#[cfg(test)]
mod app_tests;
#[cfg(test)]
mod ctl_tests;
#[cfg(test)]
mod playback_tests;
#[cfg(test)]
mod store_tests;
#[cfg(test)]
mod world_tests;
