//! A history that only proofs read.
//!
//! A machine that keeps what came of its events, and not the events, can still say in its contracts which they were:
//!
//! ```
//! self.events = self.events.and(&line, event);
//! ```
//!
//! takes no memory and no time, and a clause then has `self.events.items`, each event with its line, the oldest first.
#![tactic(auto)]

mod history;

pub use history::History;
