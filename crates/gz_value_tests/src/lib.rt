//! Tests of values, journals, identifiers, spellings and logs: outside vectors, and that each call finds memory.
//!
//! A crate with tests is proved once more with them, so they stand here and not in the crates that they test.
#![tactic(auto)]

#[cfg(test)]
mod alloc_tests;
#[cfg(test)]
mod base_tests;
#[cfg(test)]
mod codec_tests;
#[cfg(test)]
mod depot_tests;
#[cfg(test)]
mod fragment_tests;
#[cfg(test)]
mod frames_tests;
#[cfg(test)]
mod journal_tests;
#[cfg(test)]
mod json_values_tests;
#[cfg(test)]
mod label_tests;
#[cfg(test)]
mod lines_tests;
#[cfg(test)]
mod memory_tests;
#[cfg(test)]
mod messages_tests;
#[cfg(test)]
mod ranks_tests;
#[cfg(test)]
mod recovery_tests;
#[cfg(test)]
mod replica_tests;
#[cfg(test)]
mod sequencer_tests;
#[cfg(test)]
mod spelling_tests;
#[cfg(test)]
mod spool_tests;
#[cfg(test)]
mod uuid_tests;
#[cfg(test)]
mod wire_tests;
