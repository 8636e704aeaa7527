//! Numbers in ascending order, of which the one at any place is found, and any one is taken away, at the cost of the
//! height of a balanced tree.
//!
//! ```text
//! let mut ranks = Ranks::new();
//! ranks.push(Slot::new(alloc, 3)?);
//! ranks.push(Slot::new(alloc, 7)?);
//! let second = ranks.nth(1);       // Some(7)
//! ranks.remove(3);
//! ```
#![tactic(auto)]

mod ranks;
mod tree;

pub use ranks::{Ranks, Slot};
