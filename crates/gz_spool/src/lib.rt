//! Spools: the end of a journal, as one of its members holds it.
//!
//! `specs/Spools.antt` says what a spool is and what becomes of it: an entry more, a greater head, a trim.
//!
//! ```text
//! let mut spool = Spool::adopt(image).ok_or(Refused)?;        // an image whose head stands between its begin and its end
//! spool.push(entry)?;                                         // at the end
//! spool.raise_head(spool.end());                              // what all members hold
//! let freed = spool.trim_to(stored);                          // what the store has is dropped
//! ```
#![tactic(auto)]

mod error;
mod laws;
mod spool;

pub use error::SpoolError;
pub use laws::heads_stay_within;
pub use spool::Spool;
