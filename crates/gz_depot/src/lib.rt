//! The node that keeps the fragments of all journals: the store.
//!
//! ```text
//! let mut depot = Depot::new(alloc);
//! let sends = depot.step(&from, client, msg)?;        // what goes out, in its order
//! ```
#![tactic(auto)]

mod answers;
mod depot;

pub use depot::Depot;
