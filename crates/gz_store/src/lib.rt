//! A shard's state and checkpoint as files of its recovery log.
//!
//! ```text
//! let mut recorder = Recorder::new(author, player.fsm());
//! let ops = commit_ops(alloc, &mut recorder, &state, &checkpoint)?;
//! let bytes = print_ops(alloc, ops.as_slice())?;
//! // bytes are appended to the log, and a player is fed them
//! let store = load(alloc, player.fsm())?;
//! ```
#![tactic(auto)]

mod checkpoint;
mod commit;
mod error;
mod laws;
mod loading;
mod print;
mod read;

pub use checkpoint::{Checkpoint, Intent, Source, Store};
pub use commit::{Ops, commit_ops, print_ops};
pub use error::LoadError;
pub use laws::loads_the_last_commit;
pub use loading::load;
pub use print::print_store;
pub use read::read_store;
