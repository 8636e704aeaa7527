//! A space of keys with revisions, compare-and-put transactions and leases, and mirrors of it.
//!
//! ```text
//! let mut keys = KeySpace::new(alloc);
//! let lease = keys.grant(key, value)?;                         // the new revision
//! let revision = keys.txn(&compares, &writes)?;                // all the writes, or CompareFailed and none
//! let changes = keys.since(0)?;
//! let mut mirror = Mirror::new(alloc);                         // lags, and never differs in what it has seen
//! mirror.apply(change)?;
//! ```
#![tactic(auto)]

mod error;
mod formats;
mod keyspace;
mod laws;
mod mirror;
mod rows;
mod table;

pub use error::KeyError;
pub use formats::{Ids, Joined, print_joined, read_ids, read_joined, read_sync};
pub use keyspace::KeySpace;
pub use laws::mirrors_agree;
pub use mirror::Mirror;
pub use table::Held;
