//! A cluster: its nodes, the messages in flight, what may happen, and runs.
//!
//! `specs/` says what a run is: a fold of nodes' steps over events (`specs/Events.antt`), where a
//! node's answer to an item is that node's step and nothing else. What a run acknowledged of a
//! journal (`specs/Ledger.antt`), whether it was handed over (`specs/Handover.antt`) and what is to
//! hold of it (`specs/Statements.antt`) are functions of the run. This crate has definitions alone.
#![tactic(auto)]

mod laws;

pub use laws::sends_are_counted;
