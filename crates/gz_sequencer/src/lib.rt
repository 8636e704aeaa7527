//! Which messages of a text are released, from bytes that come in any pieces.
//!
//! ```text
//! let mut sequencer = Sequencer::new(alloc, 0);
//! sequencer.feed(sequencer.at(), bytes)?;
//! while let Some(message) = sequencer.take_released() { .. }   // duplicates and open transactions left out
//! let point = sequencer.checkpoint()?;
//! let again = Sequencer::resume(alloc, &point)?;               // goes on as if it had never stopped
//! ```
#![tactic(auto)]

mod laws;
mod part;
mod parts;
mod point;
mod sequencer;

pub use laws::{
    checkpoint_stays, given_is_committed, prefix_commits_prefix, released_is_committed,
    resumed_checkpoints_agree, resumed_releases_the_rest, transactions_are_released,
};
pub use point::{ProducerMark, SourcePoint};
pub use sequencer::Sequencer;
