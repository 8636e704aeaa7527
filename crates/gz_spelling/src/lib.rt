//! Messages as bytes: each message has one spelling, and no spelling is a prefix of another.
//!
//! ```text
//! let bytes = encode(alloc, &peer, &msg)?;                    // its one spelling
//! let decoded = decode(alloc, bytes.as_slice())?;             // the message, its peer, and how many bytes they took
//! ```
#![tactic(auto)]

mod error;
mod laws;
mod read_members;
mod read_space;
mod read_store;
mod reading;
mod table;
mod wire;
mod write_members;
mod write_space;
mod write_store;
mod writing;

pub use error::WireError;
pub use laws::no_spelling_is_a_prefix;
pub use table::{Row, Table, messages, tag_of};
pub use wire::{Decoded, decode, encode};
