//! Fragments of journals: their names, and the index of those that a store keeps.
//!
//! ```text
//! let mut index = Index::new(alloc);
//! if let Some(name) = name_of(0, content.as_slice()) {
//!     index.add(name, content)?;
//! }
//! let at = index.covers(2);        // the name of the fragment with the byte at offset 2
//! ```
#![tactic(auto)]

mod error;
mod fragment;
mod index;
mod laws;
mod name;
mod tree;

pub use error::FragmentError;
pub use fragment::Fragment;
pub use index::Index;
pub use laws::names_both_ways;
pub use name::{FragmentName, name_of};
